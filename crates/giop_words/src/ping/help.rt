//! What `giopctl ping --help` says behind its options.

/// The help of `ping`.
pub const PING_HELP: &str = "\
It calls _non_existent, the operation by which a client asks whether an object is there, and shows
what that came to, as giopctl call does:
  1 Done 0 [false]      the object is there
  1 Done 0 [true]       it isn't
  1 Done 2 ID MINOR COMPLETION   a system exception, such as OBJECT_NOT_EXIST
With --json the line is {\"id\":1,\"what\":WHAT,..}, as by giopctl call.
Standard error tells how long it took from the beginning of the connection on, in microseconds.

Exit statuses:
  0  the object answered
  1  it didn't, or by an exception or a forward; or the target is refused
  2  usage
  3  the connection failed
  4  out of memory

Example:
  giopctl ping --timeout 5 --json --target corbaloc::1.2@127.0.0.1:2810/k";
