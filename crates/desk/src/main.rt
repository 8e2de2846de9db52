// A request a line on standard input, an answer a line on standard output. The argument, where there is one, names the file
// of the settings, which is read once, ahead of the first request; where it cannot be read, a message goes to standard
// error and nothing is answered. The work is in `reply`; this reads the settings and the lines.
#![tactic(auto)]

ghost use Rattle.std.specs.Prelude.{◌≤◌, length};
ghost use Rattle.desk.specs.Keeps.{Inside, Keeps};

use console::Named;
use split::Found;
use std::io::Read;

// How much of a line is kept: one byte more than it may have, so that a longer one is known as such.
const KEPT: usize = 1001;

// Likewise of the settings, which have at most 64 versions of 44 bytes.
const USED: usize = 2817;

// Writes the reply to a line, and answers whether that went well. 512 bytes have room for every reply.
fn answer(rt: &(impl Print + Eprint), used: &[u8], line: &[u8]) -> bool {
    let mut out = [0u8; 512];
    match reply::reply(used, line, &mut out) {
        Ok(n) => console::print(rt, &out[..n]),
        Err(_) => false,
    }
}

// Answers the lines that end in the input.
fn feed(
    rt: &(impl Print + Eprint),
    used: &[u8],
    input: &[u8],
    line: &mut [u8],
    kept: usize,
) -> Option<usize>
    requires { kept ≤ length line.old }
    ensures { Inside result (length line.new) × Keeps input.now line.old kept line.new result }
{
    let mut k = kept;
    let mut from = 0;
    loop {
        match split::next_line(line, k, input, from) {
            Found::Line(n, at) => {
                if !answer(rt, used, &line[..n]) {
                    return None;
                }
                k = 0;
                from = at;
            }
            Found::Kept(n) => return Some(n),
        }
    }
}

// One read, and the lines that it ends.
fn take_some(
    rt: &(impl Print + Eprint),
    from: &mut impl Read,
    used: &[u8],
    line: &mut [u8],
    kept: usize,
) -> Option<usize>
    requires { kept ≤ length line.old }
    ensures { Inside result (length line.new) }
{
    let mut input = [0u8; 65536];
    let got = console::read_some(rt, from, &mut input);
    if got.failed {
        return None;
    }
    if got.length == 0 {
        if kept > 0 {
            answer(rt, used, &line[..kept]);
        }
        return None;
    }
    feed(rt, used, &input[..got.length], line, kept)
}

// The answers to the lines of standard input. A proved loop has to end, and nothing says that the input does: the turns are
// counted up to a number that no run reaches.
fn serve(rt: &(impl Print + Eprint), from: &mut impl Read, used: &[u8]) {
    let mut line = [0u8; KEPT];
    let mut kept = 0;
    for _ in 0..u64::MAX {
        let Some(k) = take_some(rt, from, used, &mut line, kept) else {
            return;
        };
        kept = k;
    }
}

// The same by the settings in a file that is open.
fn serve_by(
    rt: &(impl Print + Eprint),
    from: &mut impl Read,
    settings: &mut impl Read,
    name: &[u8],
) {
    let mut buf = [0u8; USED];
    let input = console::read_whole(rt, settings, name, &mut buf);
    if !input.failed {
        serve(rt, from, &buf[..input.length]);
    }
}

fn main(rt: HostRuntime) {
    let mut from = rt.stdin();
    let count = console::arg_count(&rt);
    if count < 2 {
        serve(&rt, &mut from, b"");
        return;
    }
    if count > 2 {
        console::say(&rt, b"desk: one file of settings at most\n");
        return;
    }
    let mut path = [0u8; console::WORD];
    let Named { file, length } = console::open_named(&rt, &mut path);
    if let Some(mut file) = file {
        serve_by(&rt, &mut from, &mut file, &path[..length]);
    }
}
