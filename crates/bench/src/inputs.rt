// The fixed series: splitmix64, and the inputs that are made from its words.
use vector::{State, Vector};

pub const SEED: u64 = 1;

fn product(a: u32, b: u32) -> u64 {
    a as u64 * b as u64
}

// a * b, modulo 2^64: of the halves' four products, the one of the upper halves lies wholly above.
pub fn wrapping_mul(a: u64, b: u64) -> u64 {
    let a0 = (a % 4294967296) as u32;
    let a1 = (a / 4294967296) as u32;
    let b0 = (b % 4294967296) as u32;
    let b1 = (b / 4294967296) as u32;
    let crossed = product(a1, b0).wrapping_add(product(a0, b1));
    product(a0, b0).wrapping_add(crossed << 32)
}

// The next word of the series.
pub fn next(from: &mut u64) -> u64 {
    let u = from.wrapping_add(0x9E3779B97F4A7C15);
    *from = u;
    let y = wrapping_mul(u ^ (u >> 30), 0xBF58476D1CE4E5B9);
    let z = wrapping_mul(y ^ (y >> 27), 0x94D049BB133111EB);
    z ^ (z >> 31)
}

// A number from a up to b, in steps of 2^-53 of the way.
pub fn between(from: &mut u64, a: f64, b: f64) -> f64 {
    let k = std::num::nearest_u64_to_f64(next(from) >> 11);
    a + (b - a) * (k * 1.1102230246251565e-16)
}

pub fn mu(from: &mut u64) -> f64 {
    between(from, 2147483648.0, 8589934592.0)
}

fn vector_within(from: &mut u64, most: f64) -> Vector {
    let x = between(from, -most, most);
    let y = between(from, -most, most);
    let z = between(from, -most, most);
    Vector { x, y, z }
}

pub fn position(from: &mut u64) -> Vector {
    vector_within(from, 8388608.0)
}

pub fn state(from: &mut u64) -> State {
    let r = position(from);
    State::new(r, vector_within(from, 20.0))
}

// Any number with a clear sign bit; the pattern of a NaN gives a NaN.
pub fn magnitude(from: &mut u64) -> f64 {
    let b = next(from) % 0x8000_0000_0000_0000;
    if b > 0x7FF0_0000_0000_0000 {
        return 0.0 / 0.0;
    }
    f64::from_bits(b)
}
