// Lists a session: the file that the argument names, or standard input. The listing goes to standard output, with one
// write for many lines; where the session cannot be read, a message goes to standard error and nothing to standard output.
#![tactic(auto)]

use console::Named;
use report::Next;
use std::io::Read;

fn main(rt: HostRuntime) {
    let count = console::arg_count(&rt);
    if count < 2 {
        list_from(&rt, &mut rt.stdin(), b"standard input");
        return;
    }
    if count > 2 {
        console::say(&rt, b"listing: one file at most\n");
        return;
    }
    let mut path = [0u8; console::WORD];
    let Named { file, length } = console::open_named(&rt, &mut path);
    if let Some(mut file) = file {
        list_from(&rt, &mut file, &path[..length]);
    }
}

// One byte more than a session may have, so that a longer one is known as such.
fn list_from(rt: &(impl Print + Eprint), from: &mut impl Read, name: &[u8]) {
    let mut session = [0u8; 65537];
    let input = console::read_whole(rt, from, name, &mut session);
    if input.failed {
        return;
    }
    let mut out = [0u8; 131072];
    list(rt, &session[..input.length], &mut out);
}

fn list(rt: &(impl Print + Eprint), s: &[u8], out: &mut [u8]) {
    let mut next = Next::Heading;
    loop {
        let Ok(f) = report::fill(s, next, out) else {
            return;
        };
        if !console::print(rt, &out[..f.length]) {
            return;
        }
        next = f.next;
        if report::is_done(next) {
            return;
        }
    }
}
