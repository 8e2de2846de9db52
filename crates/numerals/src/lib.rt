// What a word says as a number: bits or a decimal, or a whole number. What cannot be read is `None`.
#![tactic(auto)]

mod digits;
mod places;
mod reals;

pub use digits::{read_signed, read_whole};
pub use places::{signed_at, whole_at};
pub use reals::read_number;
