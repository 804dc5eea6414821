//! What `giopctl trace --help` says behind its options.

/// The help of `trace`.
pub const TRACE_HELP: &str = "\
CLIENT and SERVER are what the two ends of one connection sent. Each call has a line when it is over:
its id, what was asked and what it came to. With CLIENT alone the line is written when the request is
whole, and says nothing of what it came to. Asked is
  Asked TARGET OPERATION INS    a Request, and its values as a JSON list
  LocateAsked TARGET            a LocateRequest
  Undecoded FAULT OCTETS        one that can't be decoded: header, operation or body, and where
  Unfinished KIND OCTETS        one of which pieces are missing
  Unasked                       nothing, where an answer came all the same
and it came to
  Done 0 OUTS                   a result
  Done 1 EXCEPTION MEMBERS      a user exception
  Done 2 EXCEPTION MINOR 0xHEX COMPLETION   a system exception
  Done 3 IOR, Done 4 IOR        a forward
  LocateDone STATUS             a LocateReply
  OnewaySent, Cancelled, NoAnswer
  Undecoded reply FAULT [exception EXCEPTION] OCTETS, Unfinished KIND OCTETS
A message without a place in a call is told by itself, as Client KIND OCTETS or Server KIND OCTETS.
Calls that are open at the end follow in ascending order of their ids. The last lines tell how many
octets of each direction are left, or what is wrong with the header that stands there.
With --json each call is {\"id\":ID,\"asked\":{..},\"outcome\":{..}}, in which \"what\" says
what each is; the last lines are {\"end\":\"client\",\"rest\":N} or
{\"end\":\"client\",\"fault\":{..}}, and of \"server\" the same.
After each message of CLIENT those of SERVER are read up to the first Reply to a call whose request
hasn't been read; that one waits.
--interface KEY=FILE, any number of times, is the interface of the object of a key alone. KEY is as
in a corbaloc, with % and two hexadecimal digits for what isn't plain. It is what stands before the
first =; of =FILE there is none.

Exit statuses:
  0  both directions are messages and nothing else
  1  octets are left, or a header is wrong; or the interface is refused
  2  usage
  3  reading or writing failed
  4  out of memory

Example:
  giopctl trace --interface examples/demo.json examples/omniorb_client.giop \
examples/omniorb_server.giop";
