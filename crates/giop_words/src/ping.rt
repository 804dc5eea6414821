//! The words of `ping`. A change here is one in docs/giopctl.md and tests/program too.

mod help;

use crate::ping::help::PING_HELP;
use crate::words::form::JSON;
use crate::words::row::CommandRow;
use crate::words::session::{LITTLE, TARGET, TIMEOUT};

/// The command `ping`.
pub(crate) const PING: CommandRow = CommandRow {
    name: "ping",
    about: "Asks an object whether it is there, and tells how long that took",
    help: PING_HELP,
    rows: &[TARGET, TIMEOUT, JSON, LITTLE],
};
