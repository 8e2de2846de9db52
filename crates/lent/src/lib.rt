// What a caller of another language lends: arrays that are read as vectors and states, and arrays that are given an answer.
#![tactic(auto)]

mod putting;

ghost use Rattle.std.specs.Prelude.{◌≡◌, get_or};
ghost use Rattle.std.specs.Float.{nan};
ghost use Rattle.lent.specs.Given.{vector_in, state_in};

pub use putting::{put_numbers, put_wholes};
use vector::{State, Vector};

// Number i, and a NaN where there is none.
pub fn number_at(s: &[f64], i: usize) -> f64
    ensures { result ≡ get_or s.now i nan }
{
    s.get(i).copied().unwrap_or(f64::NAN)
}

// Word i, and 0 where there is none.
pub fn word_at(s: &[u64], i: usize) -> u64
    ensures { result ≡ get_or s.now i 0 }
{
    s.get(i).copied().unwrap_or(0)
}

pub fn vector_in(s: &[f64]) -> Vector
    ensures { result ≡ vector_in s.now }
{
    let x = number_at(s, 0);
    let y = number_at(s, 1);
    let z = number_at(s, 2);
    Vector { x, y, z }
}

pub fn state_in(s: &[f64]) -> State
    ensures { result ≡ state_in s.now }
{
    let rx = number_at(s, 0);
    let ry = number_at(s, 1);
    let rz = number_at(s, 2);
    let vx = number_at(s, 3);
    let vy = number_at(s, 4);
    let vz = number_at(s, 5);
    State {
        rx,
        ry,
        rz,
        vx,
        vy,
        vz,
    }
}
