// The front door for C and whatever calls C, over numbers and lent arrays. Each routine returns the number of the refusal, and
// 0 for an answer; what is lent for the answer is written on an answer alone. Here are the numbers, the looks, and what is
// worked out of one state.
#![tactic(auto)]

mod looks;
mod numbers;
mod orbits;

pub use looks::{cabin_sight, cabin_wheel};
pub use numbers::{cabin_c, cabin_root, cabin_s};
pub use orbits::{cabin_apsides, cabin_transfer_time};
