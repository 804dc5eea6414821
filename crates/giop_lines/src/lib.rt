//! The lines that giopctl writes, without their newlines: of messages, of references and of parts
//! that other lines have, in words and as JSON. Each is pinned to a text in specs/Lines.antt,
//! BodyLines.antt, ConvertLines.antt or TraceLines.antt, and docs/giopctl.md shows it; or, as JSON,
//! in specs/JsonLines.antt, DumpJson.antt or ConvertJson.antt, and docs/FORMATS.md shows it: change
//! all three. The lines of calls are giop_call_lines'.
#![tactic(auto)]

mod appending;
mod body;
mod cdr_fault;
mod end;
mod json;
mod message;
mod octets;
mod reference;
mod refusal;
mod traced;

pub use appending::{append_escaped, append_hex, append_id, append_target};
pub use body::{InsLine, JoinedLine, RequestFaultText, UndecodedLine, UnjoinedLine};
pub use cdr_fault::CdrFaultText;
pub use end::{FaultLine, HeadFaultLine, RestLine};
pub use json::{
    CdrFaultJson, CorbalocJson, FaultJson, HeadFaultJson, HexJson, IdJson, IiopJson, InsJson,
    IorJson, JoinedJson, KeyJson, LocateReplyJson, LocateRequestJson, MessageJson, ProfileJson,
    RefusalJson, RefusedJson, ReplyJson, RequestFaultJson, RequestJson, RestJson, TargetJson,
    TextJson, TypeJson, UndecodedJson, UnjoinedJson, WireFaultJson,
};
pub use message::MessageLine;
pub use message::locate::{LocateReplyLine, LocateRequestLine};
pub use message::reply::ReplyLine;
pub use message::request::RequestLine;
pub use octets::{EscapedText, HexText};
pub use reference::{IiopLine, ProfileLine, TypeLine};
pub use refusal::RefusalLine;
pub use traced::{IdText, MinorText, OwnTargetText};
