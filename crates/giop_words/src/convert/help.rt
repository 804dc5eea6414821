//! What `giopctl convert --help` says behind its options, and that of each kind.

/// The help of `convert`.
pub const CONVERT_HELP: &str = "\
One newline at the file's end is dropped. What is refused is told as `fault NUMBER NAME`, with the
place where it has one, and status 1.

Examples:
  giopctl convert ior examples/printer.ior
  giopctl convert corbaloc examples/printer.corbaloc
  giopctl convert encode examples/point.json --desc examples/point.desc.json
  giopctl convert decode examples/point.hex --desc examples/point.desc.json";

/// That of `convert ior`.
pub const IOR_HELP: &str = "\
The file holds IOR: and hexadecimal digits. The first line is the type id, the last one the text
again; between them each profile has a line: one of tag 0 its version, host, port, object key and
the number of its components, any other its tag and its octets.
With --json the line is {\"type_id\":TYPE,\"profiles\":[{..},..],\"ior\":TEXT}.

Example:
  giopctl convert ior examples/printer.ior";

/// That of `convert corbaloc`.
pub const CORBALOC_HELP: &str = "\
The file holds corbaloc: and addresses of IIOP. The first line is the corbaloc written in full, the
second one the text of its reference.
With --json the line is {\"corbaloc\":TEXT,\"ior\":TEXT}.

Example:
  giopctl convert corbaloc examples/printer.corbaloc";

/// That of `convert encode`.
pub const ENCODE_HELP: &str = "\
The file holds a value in JSON, and the file of --desc its description. The line is the value's
octets from offset 0 on, in hexadecimal.

Example:
  giopctl convert encode examples/point.json --desc examples/point.desc.json --little";

/// That of `convert decode`.
pub const DECODE_HELP: &str = "\
The file holds octets in hexadecimal, from offset 0 on, and the file of --desc the description of
the value that they are. The line is the value in JSON.

Example:
  giopctl convert decode examples/point.hex --desc examples/point.desc.json";
