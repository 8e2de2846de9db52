// A session of all kinds of record, made from the series.
use crate::fold::bits;
use crate::inputs::{between, next};

// The lowest n bytes of v, the least significant first; the answer is the place behind them.
fn put(buf: &mut [u8], at: usize, n: usize, v: u64) -> usize {
    let mut place = at;
    let mut rest = v;
    for _ in 0..n {
        place = text::byte(buf, place, (rest % 256) as u8);
        rest /= 256;
    }
    place
}

fn put_numbers(from: &mut u64, buf: &mut [u8], at: usize, n: usize) -> usize {
    let mut place = at;
    for _ in 0..n {
        let x = between(from, -8388608.0, 8388608.0);
        place = put(buf, place, 8, bits(x));
    }
    place
}

fn numbers_of(kind: u64) -> usize {
    match kind {
        1 => 6,
        2 => 3,
        _ => 2,
    }
}

fn length_of(kind: u64) -> usize {
    match kind {
        1 => 62,
        2 => 38,
        _ => 30,
    }
}

// One record: the header, the time within a thousand days of day 0, and the numbers.
fn put_record(from: &mut u64, buf: &mut [u8], at: usize, u: u64) -> usize {
    let kind = 1 + u % 3;
    let a = put(buf, at, 2, length_of(kind) as u64);
    let b = put(buf, a, 2, kind);
    let c = put(buf, b, 1, (u >> 8) % 2);
    let body = if kind == 1 { (u >> 9) % 2 } else { 0 };
    let d = put(buf, c, 1, body);
    let time = (next(from) % 17280000000).wrapping_sub(8640000000);
    let e = put(buf, d, 8, time);
    put_numbers(from, buf, e, numbers_of(kind))
}

// Records, one behind the other, until the next would end past byte 65,536; the answer is the session's size.
// A record has 30 bytes at least, so that the 2,185th never fits.
pub fn make(from: &mut u64, buf: &mut [u8]) -> usize {
    let mut size: usize = 0;
    for _ in 0..2185 {
        let u = next(from);
        if size.wrapping_add(length_of(1 + u % 3)) > 65536 {
            return size;
        }
        size = put_record(from, buf, size, u);
    }
    size
}
