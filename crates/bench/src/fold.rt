// The checksum of the answers: each number is folded as its bits, a refusal as its number.
use crate::inputs::wrapping_mul;
use refusal::Refusal;
use solve::{Grade, Solution};
use vector::{State, Vector};

pub const EMPTY: u64 = 0xCBF29CE484222325;

pub fn word(sum: u64, u: u64) -> u64 {
    wrapping_mul(sum ^ u, 0x100000001B3)
}

// The bits of x; no answer holds a NaN, whose bits would be any.
pub fn bits(x: f64) -> u64 {
    if x != x {
        return 0;
    }
    f64::to_bits(x)
}

pub fn number(sum: u64, x: f64) -> u64 {
    word(sum, bits(x))
}

pub fn refusal(sum: u64, refusal: Refusal) -> u64 {
    word(sum, u64::from(refusal.number()))
}

// n as its two's complement.
fn signed(sum: u64, n: i64) -> u64 {
    let m = signs::magnitude(n);
    if signs::is_negative(n) {
        return word(sum, 0xFFFF_FFFF_FFFF_FFFF - m);
    }
    word(sum, m)
}

fn grade(sum: u64, g: Grade) -> u64 {
    match g {
        Grade::Closed => word(sum, 0),
        Grade::Fair => word(sum, 1),
        Grade::Rough => word(sum, 2),
    }
}

pub fn solution(sum: u64, x: Solution) -> u64 {
    let g = x.grade;
    let a = word(signed(sum, x.n), x.count);
    number(number(grade(a, g), x.t), x.err)
}

pub fn vector(sum: u64, a: Vector) -> u64 {
    number(number(number(sum, a.x), a.y), a.z)
}

pub fn state(sum: u64, s: State) -> u64 {
    vector(vector(sum, s.position()), s.velocity())
}

// Each byte of a text.
pub fn bytes(sum: u64, s: &[u8]) -> u64 {
    let mut h = sum;
    for b in s {
        h = word(h, u64::from(*b));
    }
    h
}
