// The listing's lines, each made at the front of a lent line buffer.
#![tactic(auto)]

mod day;
mod line;

pub use day::{Day, day_of};
pub use line::{heading, name, record_line, refused_at, refused_line, stamp};
