// A fixed series of solves and a checksum of the answers' bits: `bench NAME [COUNT]`, or every series, short, with no
// argument. NAME with `-inputs` behind it is the same series with nothing solved. second/README.md has the series in words.
#![tactic(auto)]

mod fold;
mod inputs;
mod records;
mod runs;

ghost use Rattle.std.specs.Prelude.{◌<◌, ◌≤◌, length};

use runs::{Bench, run, usual};
use std::env::Env;

// 16 digits and a newline.
fn print(rt: &(impl Print + Eprint), sum: u64) {
    let mut line = [b'\n'; 17];
    let mut rest = sum;
    for at in (0..16).rev() {
        line[at] = text::digit(rest);
        rest /= 16;
    }
    console::print(rt, &line);
}

fn bench_of(name: &[u8]) -> Option<Bench> {
    match name {
        b"root" => Some(Bench::Root),
        b"advance" => Some(Bench::Advance),
        b"lambert" => Some(Bench::Lambert),
        b"theta" => Some(Bench::Theta),
        b"list" => Some(Bench::List),
        _ => None,
    }
}

// How much of a name stands ahead of `-inputs`; all of it where that is not there.
fn ahead(name: &[u8]) -> usize
    ensures { result ≤ length name.now }
{
    match name.strip_suffix(b"-inputs") {
        Some(rest) => rest.len(),
        None => name.len(),
    }
}

// A decimal; 0 for what is none, or has over 18 digits.
fn decimal(s: &[u8]) -> u64 {
    let mut n: u64 = 0;
    for b in s {
        let b = *b;
        if b < b'0' {
            return 0;
        }
        if b > b'9' {
            return 0;
        }
        if n >= 100000000000000000 {
            return 0;
        }
        n = n * 10 + u64::from(b - b'0');
    }
    n
}

// The count that the second argument gives; the usual one for none, or 0.
fn count_for(rt: &impl Env, bench: Bench) -> u64 {
    let mut word = [0u8; console::WORD];
    let count = match console::arg(rt, 2, &mut word) {
        Ok(n) => decimal(&word[..n]),
        Err(_) => 0,
    };
    if count == 0 {
        return usual(bench);
    }
    count
}

fn some(rt: &(impl Print + Eprint), name: &[u8], bench: Bench, count: u64) {
    console::print(rt, name);
    console::print(rt, b" ");
    print(rt, run(bench, false, count));
    console::print(rt, name);
    console::print(rt, b"-inputs ");
    print(rt, run(bench, true, count));
}

fn all(rt: &(impl Print + Eprint)) {
    some(rt, b"root", Bench::Root, 1000);
    some(rt, b"advance", Bench::Advance, 200);
    some(rt, b"lambert", Bench::Lambert, 100);
    some(rt, b"theta", Bench::Theta, 500);
    some(rt, b"list", Bench::List, 3);
}

fn main(rt: HostRuntime) {
    if console::arg_count(&rt) < 2 {
        all(&rt);
        return;
    }
    let mut word = [0u8; console::WORD];
    let n = match console::arg(&rt, 1, &mut word) {
        Ok(n) => n,
        Err(_) => 0,
    };
    let m = ahead(&word[..n]);
    match bench_of(&word[..m]) {
        Some(bench) => print(&rt, run(bench, m < n, count_for(&rt, bench))),
        None => {
            console::say(
                &rt,
                b"bench: root, advance, lambert, theta or list, with -inputs behind it or not, and a count\n",
            );
        }
    }
}
