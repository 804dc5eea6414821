//! The words of giopctl's command line: what they ask for, what is wrong with them, and their help.
//! A file stands for each command, and the options that several of them have stand in `words`.
#![tactic(auto)]

mod call;
mod check;
mod convert;
mod dump;
pub mod laws;
mod locate;
mod ping;
mod serve;
mod task;
mod trace;
mod words;

pub use call::CallWords;
pub use check::CheckWords;
pub use convert::ConvertKind;
pub use dump::DumpWords;
pub use serve::{KeyWord, ServeWords};
pub use task::{Task, task_of};
pub use trace::TraceWords;
pub use words::file::FileWord;
pub use words::limit::LimitWords;
pub use words::object::ObjectWords;
pub use words::session::{SendingWords, Telling};
