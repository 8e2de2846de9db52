// The five series: each solve's input from the series, its answer into the checksum. A bare run folds the inputs and
// solves nothing: what it takes is the series' own time.
ghost use Rattle.console.specs.Counts.{IsPrefixLen};

use crate::{fold, inputs, records};
use lambert::Way;
use refusal::Refusal;
use report::Next;
use solve::{Advanced, Transferred};
use theta::TransferTime;

#[derive(Clone, Copy)]
pub enum Bench {
    Root,
    Advance,
    Lambert,
    Theta,
    List,
}

fn root(bare: bool, from: &mut u64, sum: u64) -> u64 {
    let x = inputs::magnitude(from);
    if bare {
        return fold::number(sum, x);
    }
    match root::root(x) {
        Ok(x) => fold::number(sum, x),
        Err(no) => fold::refusal(sum, no),
    }
}

fn advance(bare: bool, from: &mut u64, sum: u64) -> u64 {
    let mu = inputs::mu(from);
    let s = inputs::state(from);
    let t = inputs::between(from, -524288.0, 524288.0);
    if bare {
        return fold::state(fold::number(fold::number(sum, mu), t), s);
    }
    match solve::advance(mu, s, t) {
        Advanced::Found(to, x, _) => fold::state(fold::solution(sum, x), to),
        Advanced::TooLong => fold::refusal(sum, Refusal::TooLong),
        Advanced::NotFinished(_) => fold::refusal(sum, Refusal::NotFinished),
        Advanced::Refused(no) => fold::refusal(sum, no),
    }
}

fn lambert(bare: bool, from: &mut u64, sum: u64) -> u64 {
    let mu = inputs::mu(from);
    let first = inputs::position(from);
    let second = inputs::position(from);
    let t = inputs::between(from, 16384.0, 1048576.0);
    let way = way(from);
    if bare {
        let a = fold::number(fold::number(sum, mu), t);
        return fold::vector(fold::vector(fold_way(a, way), first), second);
    }
    match solve::transfer_velocity(mu, first, second, way, t) {
        Transferred::Found(v, x) => fold::vector(fold::solution(sum, x), v),
        Transferred::TooLong => fold::refusal(sum, Refusal::TooLong),
        Transferred::TooShort => fold::refusal(sum, Refusal::TooShort),
        Transferred::NotFinished(_) => fold::refusal(sum, Refusal::NotFinished),
        Transferred::Refused(no) => fold::refusal(sum, no),
    }
}

fn way(from: &mut u64) -> Way {
    if inputs::next(from) % 2 == 1 {
        return Way::Long;
    }
    Way::Short
}

fn fold_way(sum: u64, way: Way) -> u64 {
    match way {
        Way::Long => fold::word(sum, 1),
        Way::Short => fold::word(sum, 0),
        Way::Normal(_) => fold::word(sum, 2),
    }
}

fn theta(bare: bool, from: &mut u64, sum: u64) -> u64 {
    let mu = inputs::mu(from);
    let s = inputs::state(from);
    let h = inputs::between(from, -4.0, 4.0);
    let all = 1.0 + h * h;
    let sin = (h + h) / all;
    let cos = (1.0 - h * h) / all;
    if bare {
        let a = s.position() + s.velocity();
        return fold::number(sum, mu + a.x + a.y + a.z + sin + cos);
    }
    match theta::time_theta(mu, s, sin, cos) {
        TransferTime::Time(x) => fold::number(sum, x.time),
        TransferTime::TooLong => fold::refusal(sum, Refusal::TooLong),
        TransferTime::TooShort => fold::refusal(sum, Refusal::TooShort),
        TransferTime::Refused(no) => fold::refusal(sum, no),
    }
}

// n, held within the length of s.
fn within(n: usize, s: &[u8]) -> usize
    ensures { IsPrefixLen result s.now }
{
    if n < s.len() {
        return n;
    }
    s.len()
}

// The length of each listing, and the bytes of the last.
fn listings(s: &[u8], out: &mut [u8], count: u64) -> u64 {
    let mut sum = fold::EMPTY;
    let mut length = 0;
    for _ in 0..count {
        let Ok(f) = report::fill(s, Next::Heading, out) else {
            return sum;
        };
        length = f.length;
        sum = fold::word(sum, length as u64);
    }
    let n = within(length, out);
    fold::bytes(sum, &out[..n])
}

// The session's length as often, and its own bytes.
fn bare_listings(s: &[u8], count: u64) -> u64 {
    let mut sum = fold::EMPTY;
    for _ in 0..count {
        sum = fold::word(sum, s.len() as u64);
    }
    fold::bytes(sum, s)
}

fn list(bare: bool, count: u64) -> u64 {
    let mut from = inputs::SEED;
    let mut buf = [0u8; 65536];
    let made = records::make(&mut from, &mut buf);
    let n = within(made, &buf);
    if bare {
        return bare_listings(&buf[..n], count);
    }
    let mut out = [0u8; 131072];
    listings(&buf[..n], &mut out, count)
}

fn once(bench: Bench, bare: bool, from: &mut u64, sum: u64) -> u64 {
    match bench {
        Bench::Root => root(bare, from, sum),
        Bench::Advance => advance(bare, from, sum),
        Bench::Lambert => lambert(bare, from, sum),
        Bench::Theta => theta(bare, from, sum),
        Bench::List => sum,
    }
}

fn solves(bench: Bench, bare: bool, count: u64) -> u64 {
    let mut from = inputs::SEED;
    let mut sum = fold::EMPTY;
    for _ in 0..count {
        sum = once(bench, bare, &mut from, sum);
    }
    sum
}

pub fn run(bench: Bench, bare: bool, count: u64) -> u64 {
    match bench {
        Bench::List => list(bare, count),
        _ => solves(bench, bare, count),
    }
}

// How often, where no count is given.
pub fn usual(bench: Bench) -> u64 {
    match bench {
        Bench::Root => 10000000,
        Bench::Advance => 100000,
        Bench::Lambert => 50000,
        Bench::Theta => 500000,
        Bench::List => 1000,
    }
}
