//! What `giopctl call --help` says behind its options.

/// The help of `call`.
pub const CALL_HELP: &str = "\
The target is the text of a reference, IOR: and hexadecimal digits, of which the first IIOP profile
is taken, or a corbaloc, of which the first address is taken; quote it, since a shell reads some of
its signs. It says the version that is spoken: a corbaloc without one is of 1.0, and
corbaloc::1.2@HOST:PORT/KEY of 1.2.
--target @FILE takes the text from a file, in which a newline at the end is dropped.
The file is a JSON list of calls, each with a request id of its own:
  [{\"id\":1,\"operation\":\"add\",\"ins\":[2,5]},{\"id\":2,\"operation\":\"ping\",\"ins\":[]}]
In place of it one call may stand in words: the name of an operation, and its ins behind it, each a
JSON value. A name alone is that of a file, where there is one. The id of such a call is 1.
All of them are sent, then replies are read until all are there or the server closes the connection.
Each call has a line, in ascending order of the id:
  Done 0 OUTS           its result, and the inout and out parameters, as a JSON list
  Done 1 ID MEMBERS     an exception of the interface
  Done 2 ID MINOR COMPLETION   a system exception; completed: 0 yes, 1 no, 2 maybe
  Done 3 IOR, Done 4 IOR       the object is elsewhere, for this call or for good
  Done 5 DISPOSITION    the server wants the object addressed in another way
  OnewaySent            it has no reply
  Undecoded reply FAULT the reply can't be decoded, and where, from the message's first octet on
  Sending, Waiting, Gathering   all of it isn't sent; no reply came; a part of it came
The last line is the fault that ended the session, where there is one.
With --stream a call is made as soon as there is room for it, each call is shown as soon as it is
over, and then it is forgotten, so that a connection may have any number of calls. At the end the
calls that are still open have their lines, and those that weren't made:
  Unsent                nothing of it was sent
The file may then have a call a line, in place of a list, and be a pipe that doesn't end:
  {\"id\":1,\"operation\":\"add\",\"ins\":[2,5]}
Such lines are read as there is room for their calls; of a pipe, when no call is open. A line that is
refused ends them: the calls before it are told, then why it is refused, and its number.
With --follow a call that is forwarded is made again where the first IIOP profile of the reference
says, up to five times, over a connection of its own; its line says what it came to there, and
standard error where it was forwarded to. --follow and --stream exclude each other.
With --json each call is {\"id\":ID,\"what\":WHAT,..}, in which WHAT is result, user_exception,
system_exception, forward, forward_perm, needs_addressing, oneway, undecoded, sending, waiting,
gathering or unsent; the fault is {\"fault\":{..}}.
--interface KEY=FILE, any number of times, is the interface of the object of a key alone. KEY is as
in a corbaloc, with % and two hexadecimal digits for what isn't plain. It is what stands before the
first =; of =FILE there is none. The target says which object is called.
Where the server hangs up while calls are open, standard error says how many. With --timeout the
connection is given up where nothing comes or goes for so many seconds, and each call has its line.

Exit statuses:
  0  each call got its result, or was sent and has none
  1  one got none, or was refused; or the target, the interface or the calls are refused
  2  usage
  3  reading, writing or the connection failed
  4  out of memory

Examples, each while the example of giopctl serve --help runs:
  giopctl call --target corbaloc::1.2@127.0.0.1:2810/k --interface examples/calculator.json \
examples/calls.json
  giopctl call --target corbaloc::1.2@127.0.0.1:2810/k --interface examples/calculator.json add 2 5
  giopctl call --json --target corbaloc::1.2@127.0.0.1:2810/k \
--interface examples/calculator.json add 2 5";
