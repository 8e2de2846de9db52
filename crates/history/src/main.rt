// One order on the settings: the used part on standard input, the order's words as one argument. The answer goes to
// standard output. Where a version was stored, the used part with it goes to descriptor 3 first; else nothing does.
#![tactic(auto)]

ghost use Rattle.std.specs.Prelude.{◌≤◌, length};
ghost use Rattle.history.specs.Within.{Within};

use orders::Order;
use refusal::Refusal;
use std::fs::OpenOptions;
use std::io;
use std::io::Write;
use std::rt::Files;

// What stands behind descriptor 3, by its path.
const KEPT: &str = "/dev/fd/3";

fn list(rt: &(impl Print + Eprint), s: &[u8]) {
    let mut out = [0u8; 16384];
    if let Ok(n) = versions::list(s, &mut out) {
        console::print(rt, &out[..n]);
    }
}

fn show(rt: &(impl Print + Eprint), s: &[u8], k: u64) {
    let mut out = [0u8; 512];
    if let Ok(n) = versions::show(s, k, &mut out) {
        console::print(rt, &out[..n]);
    }
}

fn refuse(rt: &(impl Print + Eprint), refusal: Refusal) {
    let mut out = [0u8; 512];
    let n = columns::refused(&mut out, refusal);
    console::print(rt, &out[..n]);
}

fn unread(rt: &(impl Print + Eprint), word: u64) {
    let mut out = [0u8; 512];
    let n = columns::unread(&mut out, word);
    console::print(rt, &out[..n]);
}

// The used part as it is now, and the line of its last version, which was just stored.
fn kept(rt: &(impl Files + Print + Eprint), s: &[u8], k: u64) {
    match hand_on(rt, s) {
        Ok(()) => show(rt, s, k),
        Err(why) => console::fail(rt, b"the used part with the new version", why),
    }
}

// Writes the used part behind what descriptor 3 has so far.
fn hand_on(rt: &impl Files, s: &[u8]) -> io::Result<()> {
    OpenOptions::new().append(true).open(rt, KEPT)?.write_all(s)
}

fn keep(rt: &(impl Files + Print + Eprint), buf: &[u8], answer: Result<(u64, usize), Refusal>)
    requires { Within answer buf.now }
{
    match answer {
        Ok((k, e)) => kept(rt, &buf[..e], k),
        Err(refusal) => refuse(rt, refusal),
    }
}

fn obey(rt: &(impl Files + Print + Eprint), order: Order, buf: &mut [u8], used: usize)
    requires { used ≤ length buf.old }
{
    match order {
        Order::List => list(rt, &buf[..used]),
        Order::Show(k) => show(rt, &buf[..used], k),
        Order::Store(x) => {
            let answer = settings::store(buf, used, x);
            keep(rt, buf, answer);
        }
        Order::Back(k) => {
            let answer = settings::go_back(buf, used, k);
            keep(rt, buf, answer);
        }
    }
}

// One byte more than 64 versions have, so that a longer used part is known as such.
fn main(rt: HostRuntime) {
    let mut line = [0u8; console::WORD];
    let n = match console::arg(&rt, 1, &mut line) {
        Ok(n) => n,
        Err(why) => {
            console::fail(&rt, b"the order", why);
            return;
        }
    };
    let mut buf = [0u8; 2817];
    let input = console::read_whole(&rt, &mut rt.stdin(), b"the settings", &mut buf);
    if !input.failed {
        match orders::read(&line[..n]) {
            Ok(order) => obey(&rt, order, &mut buf, input.length),
            Err(word) => unread(&rt, word),
        }
    }
}
