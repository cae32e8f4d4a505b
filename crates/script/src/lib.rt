//! Reads scripts of commands, and writes commands, replies, reports and the causes for which a run
//! ends.
//!
//! The layers above use `parse`, `Command`, `Reply` with `reply_into`, `Report` and `Cause`, and
//! know their texts by the definitions in `specs/`: `Line` and `Script` for what is read, `Written`
//! for what is written. They may not know how a line is cut into words or a token is read. A
//! further command is one more function in `line.rt` and one more test in `line_at`.
#![tactic(auto)]

mod cause;
mod command;
mod laws;
mod line;
mod line_fault;
mod parse_fault;
mod parser;
mod reply;
mod reply_buf;
mod report;
#[cfg(test)]
mod tests;
mod token;
mod why;
mod writer;

pub use cause::Cause;
pub use command::Command;
pub use laws::{law_lines, law_tokens, law_written};
pub use parse_fault::ParseFault;
pub use parser::parse;
pub use reply::{Reply, reply_into, write_reply};
pub use reply_buf::ReplyBuf;
pub use report::Report;
pub use why::Why;
pub use writer::write_command;
