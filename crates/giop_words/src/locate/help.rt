//! What `giopctl locate --help` says behind its options.

/// The help of `locate`.
pub const LOCATE_HELP: &str = "\
It sends a LocateRequest, the message by which a client asks where an object is, and shows the answer:
  1 LocateDone 0        the server knows no such object
  1 LocateDone 1        the object is here
  1 LocateDone STATUS   2 or 3: it is elsewhere, for now or for good; 4: a system exception; 5: the
                        server wants the object addressed in another way
  1 Waiting             no answer came
The last line is the fault that ended the session, where there is one.
With --follow an object that is elsewhere is asked for where the first IIOP profile of the reference
says, up to five times, over a connection of its own; standard error says where. The lines tell what
came of it there.
With --json the lines are {\"id\":1,\"what\":\"located\",\"status\":STATUS}, {\"id\":1,\"what\":\"waiting\"}
and {\"fault\":{..}}.

Exit statuses:
  0  the object is here
  1  it isn't, or no answer came; or the target is refused
  2  usage
  3  the connection failed
  4  out of memory

Example:
  giopctl locate --target corbaloc::1.2@127.0.0.1:2810/k";
