// The front door for C, as in `library`: a session read and written record by record.
#![tactic(auto)]

mod reading;
mod writing;

pub use reading::{Head, cabin_read, head_of, offset_of, put_record_numbers};
pub use writing::{cabin_write, cabin_write_offset, count_from, record_from};
