//! What `giopctl dump --help` says behind its options.

/// The help of `dump`.
pub const DUMP_HELP: &str = "\
Each message has a line: its offset in the file, its kind, its version where that is 1.0 or 1.1,
its byte order (BE or LE), `more` where fragments follow, its message size, and its request id
where one is read. A Request, Reply, LocateRequest or LocateReply that no fragments follow has a
second line, behind two spaces; `body` tells how many octets stand behind its fields:
  Request        response flags, the target, the operation, the number of service contexts, body
  Reply          status, the number of service contexts, body
  LocateRequest  the target
  LocateReply    status, body
  any of them    what is wrong with its fields, and where, from the message's first octet on
A target is an object key in hexadecimal, a profile's tag, or the number of a reference's profile.
With --interface a Request has a line of its body, if its head can be read:
  ins INS               its values as a JSON list
  undecoded FAULT       why they can't be read: operation or body, and where
The last Fragment of a Request has `joined`, how many octets its pieces are together, and then the
lines of the whole Request. A piece that isn't joined has `unjoined` and why.
The last line tells how many octets are left, or what is wrong with the header that stands there.
With --json each message is {\"at\":OFFSET,\"message\":KIND,..}, with its \"head\" and its \"ins\"
in it; the last line is {\"rest\":N} or {\"at\":OFFSET,\"fault\":{..}}.

Exit statuses:
  0  the file is messages and nothing else
  1  octets are left, or a header is wrong; or the interface is refused
  2  usage
  3  reading or writing failed
  4  out of memory

Examples:
  giopctl dump examples/ping.giop
  giopctl dump --interface examples/calculator.json examples/add.giop";
