// The session writer: a record at a place of a lent buffer, after those that are there already.
#![tactic(auto)]

mod numbers;
mod offset;
mod put;
mod record;

pub use offset::write_offset;
pub use record::write;
