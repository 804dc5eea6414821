//! What `giopctl serve --help` says behind its options.

/// The help of `serve`.
pub const SERVE_HELP: &str = "\
It listens at 127.0.0.1 alone, and serves one connection after the other. The file of the answers is
a JSON object with a member for each operation that isn't oneway: its result, inout and out
parameters, or an exception of the interface and its members:
  {\"ping\":{\"ok\":[]},\"add\":{\"ok\":[7]},\"list\":{\"user\":\"IDL:Demo/Bad:1.0\",\"members\":[]}}
A list of answers in place of one is given in turn, one to a call; the last stays.
An answer that passes the limits in every version is refused with the file.
--interface KEY=FILE, any number of times, is the interface of the object of a key alone. KEY is as
in a corbaloc, with % and two hexadecimal digits for what isn't plain. It is what stands before the
first =; of =FILE there is none. So it is with --answers, and each KEY is an object that is served
too. Lines end then with the object, as by giopctl check.
A Request of an object that is served is answered so, one of another object by OBJECT_NOT_EXIST, an
unknown operation by BAD_OPERATION, and one that can't be decoded by MARSHAL. A LocateRequest is told
whether its object is here. With --type-id, or by the id of the interface's file, an object answers
_is_a and _non_existent by itself, where the answers say nothing of them.
When a connection has ended its number is shown, and then a line for each of its calls, as by check,
and for those that were answered:
  Answered STATUS       a Request: 0 a result, 1 an exception, 2 a system exception
  LocateAnswered 1      a LocateRequest: 1 here, 0 not
The last line is the fault that ended it, where there is one.
With --stream the number is shown at once, and each call as soon as it is over. Then it is forgotten,
so that a connection may have any number of calls. Of a Request that is answered its line says
  Asked OPERATION INS Answered REPLY, or Undecoded FAULT Answered REPLY
with what giopctl call shows behind Done as REPLY. The calls that are still open have their lines at
the end, and the last line is rest N, the octets that are no whole message, or the fault.
With --json the number is {\"connection\":K} and each call {\"id\":ID,\"what\":WHAT,..}, in which WHAT
is answered, locate_answered, or as by check; a fault is {\"fault\":{..}}. With --stream answered has
\"asked\" and \"outcome\", as by trace, and the octets that are left are {\"rest\":N}.
Where a client hangs up within a message or a call in pieces, standard error says so.
With --ior-file the object's reference, with its type id, is written to a file before the port is told;
giopctl call takes it by --target @FILE.

Exit statuses, of which the greatest of all connections is taken:
  0  the connection ended, or the client closed it
  1  another fault ended it; or the interface or the answers are refused
  2  usage
  3  reading, writing, listening or the connection failed
  4  out of memory

Examples:
  giopctl serve --port 2810 --interface examples/calculator.json --answers examples/answers.json \
--key 6b
  giopctl serve --json --stream --port 2810 --interface examples/calculator.json \
--answers examples/answers.json --key 6b";
