//! A call as an observer of its connection sees it: what was asked, and what was answered.
use giop_msg::Msg;

/// What came of one call so far. Each message is that of its first piece with the joined octets of
/// all pieces that came (CORBA 3.3 Part 2, 9.4.9), and `more` where some are still to come.
#[derive(Debug, Drop)]
pub struct Flow {
    /// The Request or the LocateRequest; `None` where an answer came that no one asked for.
    pub asked: Option<Msg>,
    /// The Reply or the LocateReply, if one came.
    pub answer: Option<Msg>,
    /// Whether the client gave the call up.
    pub cancelled: bool,
}
