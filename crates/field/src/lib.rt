// The fields of bytes, little-endian: numbers read at a place, and put there.
#![tactic(auto)]

mod writing;

ghost use Rattle.std.specs.Prelude.{◌%◌, ◌^◌, ◌≤◌, ◌<◌, min, ◌≡◌, length};
ghost use Rattle.real.specs.F64.{bits};
ghost use Rattle.field.specs.Bytes.{le, read_of, signed_of, bits_of, short_of};

pub use writing::{put, put_float};

// The number of the w bytes from `at` on, the least significant first: at most eight of them, and those that are there.
pub fn read(s: &[u8], at: usize, w: usize) -> u64
    ensures value { result ≡ read_of at w s.now }
    ensures upper_bound { result < 256 ^ min w 8 }
{
    if at > s.len() {
        return 0;
    }
    let n = w.min(8).min(s.len() - at);
    let part = &s[at..at + n];
    match part.first_chunk() {
        // by itself, so that the compiler makes one load of it
        Some(eight) => u64::from_le_bytes(*eight),
        None => le_of(part),
    }
}

// 64 bits read as signed.
pub fn signed(n: u64) -> i64
    ensures { result ≡ signed_of n }
{
    if n < 0x8000_0000_0000_0000 {
        n as i64
    } else {
        -1 - ((u64::MAX - n) as i64)
    }
}

// The 64 bits of a signed number.
pub fn bits_of(z: i64) -> u64
    ensures { result ≡ bits_of z }
{
    let m = signs::magnitude(z);
    if signs::is_negative(z) {
        u64::MAX - m
    } else {
        m
    }
}

// 16 bits read as signed: the last of n.
pub fn short(n: u64) -> i16
    ensures { result ≡ short_of (n % 65536) }
{
    let m = n % 65536;
    if m < 0x8000 {
        m as i16
    } else {
        -1 - ((0xffff - m) as i16)
    }
}

// 64 bits read as an f64. Every pattern of a NaN is the one NaN.
pub fn float(n: u64) -> f64
    ensures { result ≡ bits n }
{
    if n % 0x8000_0000_0000_0000 > 0x7ff0_0000_0000_0000 {
        f64::NAN
    } else {
        f64::from_bits(n)
    }
}

fn le_of(p: &[u8]) -> u64
    requires { length p.now ≤ 8 }
    ensures value { result ≡ le p.now }
    ensures upper_bound { result < 256 ^ length p.now }
{
    let mut v = 0;
    for b in p.iter().rev() {
        v = v * 256 + *b as u64;
    }
    v
}
