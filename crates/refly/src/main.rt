// Flies a session again: the file that the first word names, with mu of the earth and of the moon as the next two, or the
// usual ones. The account goes to standard output, a line at a time; where the session or a number cannot be read, a
// message goes to standard error and nothing to standard output.
#![tactic(auto)]

use account::Next;
use console::Named;
use flight::Mu;
use replay::Replay;
use std::env::Env;
use std::io::Read;
use std::rt::Files;

fn main(rt: HostRuntime) {
    let count = console::arg_count(&rt);
    if count == 2 {
        let mu = Mu {
            earth: 39860120000.0,
            moon: 490277800.0,
        };
        open(&rt, mu);
        return;
    }
    if count != 4 {
        console::say(
            &rt,
            b"refly: a file, or a file and mu of the earth and the moon\n",
        );
        return;
    }
    match number(&rt, 2) {
        None => {
            console::say(&rt, b"refly: mu of the earth is not a number\n");
        }
        Some(earth) => match number(&rt, 3) {
            None => {
                console::say(&rt, b"refly: mu of the moon is not a number\n");
            }
            Some(moon) => open(&rt, Mu { earth, moon }),
        },
    }
}

// A word of the command as a number, as at the desk.
fn number(rt: &impl Env, k: usize) -> Option<f64> {
    let mut word = [0u8; console::WORD];
    match console::arg(rt, k, &mut word) {
        Ok(n) => numerals::read_number(&word[..n]),
        Err(_) => None,
    }
}

fn open(rt: &(impl Env + Files + Print + Eprint), mu: Mu) {
    let mut path = [0u8; console::WORD];
    let Named { file, length } = console::open_named(rt, &mut path);
    if let Some(mut file) = file {
        fly_from(rt, mu, &mut file, &path[..length]);
    }
}

// One byte more than a session may have, so that a longer one is known as such.
fn fly_from(rt: &(impl Print + Eprint), mu: Mu, from: &mut impl Read, name: &[u8]) {
    let mut session = [0u8; 65537];
    let input = console::read_whole(rt, from, name, &mut session);
    if input.failed {
        return;
    }
    let mut line = [0u8; 512];
    fly(rt, mu, &session[..input.length], &mut line);
}

fn fly(rt: &(impl Print + Eprint), mu: Mu, s: &[u8], line: &mut [u8]) {
    let mut next = Next::Heading;
    let mut p = Replay { v0: None, v1: None };
    loop {
        let Ok(t) = account::tell(mu, s, next, p, line) else {
            return;
        };
        if !console::print(rt, &line[..t.length]) {
            return;
        }
        next = t.next;
        p = t.replay;
        if account::is_done(next) {
            return;
        }
    }
}
