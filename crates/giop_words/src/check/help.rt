//! What `giopctl check --help` says behind its options.

/// The help of `check`.
pub const CHECK_HELP: &str = "\
The file is what a client sent on one connection. A server's end hears it, which answers nothing:
each of its calls has a line, in ascending order of the request id, with what stands under it:
  Gathering             fragments of it are still to come
  Asked OPERATION INS   a Request that waits for its reply, and its values as a JSON list
  Delivered OPERATION INS   a Request without a reply
  Undecoded FAULT       a whole message that can't be decoded: header, operation or body, and where,
                        from the message's first octet on
  LocateAsked           a LocateRequest
  Cancelled             a call that was cancelled
The last line tells how many octets are left, or the fault that ends the session. What stands in the
table then came before it.
With --json each call is {\"id\":ID,\"what\":WHAT,..}, in which WHAT is gathering, asked, delivered,
undecoded, locate_asked or cancelled; the last line is {\"rest\":N} or {\"fault\":{..}}.
The interface is a JSON object of operations, each with its ins and outs:
  {\"operations\":{\"add\":{
    \"ins\":[[\"a\",\"long\"],[\"b\",\"long\"]],\"outs\":[[\"sum\",\"long\"]]}}}
--interface KEY=FILE, any number of times, is the interface of the object of a key alone. KEY is as
in a corbaloc, with % and two hexadecimal digits for what isn't plain. It is what stands before the
first =; of =FILE there is none. Each line ends then with the object, as far as it is known:
  key HEX, profile TAG or reference INDEX

Exit statuses:
  0  no octets are left, or the client closed the connection
  1  octets are left, or there is another fault; or the interface is refused; with --strict also
     where anything is Undecoded
  2  usage
  3  reading or writing failed
  4  out of memory

Example:
  giopctl check --interface examples/calculator.json examples/add.giop";
