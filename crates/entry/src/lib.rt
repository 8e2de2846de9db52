// A line of a session's text: the record that it says, or the first word that cannot be read.
#![tactic(auto)]

mod line;
mod parts;

pub use line::{Entry, read};
