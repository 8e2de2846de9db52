// A session's text on standard input, its bytes on standard output: all of them at the end of the input, and none where
// a line cannot be read or is refused. Standard error then names the line.
#![tactic(auto)]

ghost use Rattle.std.specs.Prelude.{◌≤◌, length};
ghost use Rattle.write.specs.Feed.{Inside, Feeds, Holds};

use book::{Ended, Progress};
use split::Found;
use std::io::Read;

// How much of a line is kept: one byte more than it may have, so that a longer one is known as such.
const KEPT: usize = 1001;

// Where the program stands between two reads: how many bytes of an unfinished line are kept, and how far the lines before
// it were entered.
#[derive(Clone, Copy)]
struct State {
    kept: usize,
    progress: Progress,
}

// Enters the lines that end in the input.
fn feed(
    input: &[u8],
    line: &mut [u8],
    session: &mut [u8],
    state: State,
) -> Result<State, Ended<u32>>
    requires { (state.kept ≤ length line.old) × (state.progress.at ≤ length session.old) }
    ensures { Inside result (length line.new) (length session.new) × Feeds input.now line.old state session.old line.new session.new result }
{
    let mut kept = state.kept;
    let mut progress = state.progress;
    let mut from = 0;
    loop {
        match split::next_line(line, kept, input, from) {
            Found::Line(size, behind) => {
                progress = book::add_by_number(session, progress, &line[..size])?;
                kept = 0;
                from = behind;
            }
            Found::Kept(size) => {
                return Ok(State {
                    kept: size,
                    progress,
                });
            }
        }
    }
}

// Says which line ended it.
fn complain(rt: &impl Eprint, ended: Ended<u32>) {
    let mut buf = [0u8; 64];
    if let Ok(n) = book::tell_by_number(Err(ended), &mut buf) {
        console::say(rt, &buf[..n]);
    }
}

// The end of the input: what is kept is a line with no newline, which may be empty.
fn finish(rt: &(impl Print + Eprint), session: &mut [u8], progress: Progress, rest: &[u8])
    requires { progress.at ≤ length session.old }
{
    match book::add_by_number(session, progress, rest) {
        Ok(last) => {
            console::print(rt, &session[..last.at]);
        }
        Err(ended) => complain(rt, ended),
    }
}

// One read, and the lines that it ends.
fn take_some(
    rt: &(impl Print + Eprint),
    from: &mut impl Read,
    line: &mut [u8],
    session: &mut [u8],
    state: State,
) -> Option<State>
    requires { (state.kept ≤ length line.old) × (state.progress.at ≤ length session.old) }
    ensures { Holds result (length line.new) (length session.new) }
{
    let mut input = [0u8; 65536];
    let got = console::read_some(rt, from, &mut input);
    if got.failed {
        return None;
    }
    if got.length == 0 {
        finish(rt, session, state.progress, &line[..state.kept]);
        return None;
    }
    match feed(&input[..got.length], line, session, state) {
        Ok(next) => Some(next),
        Err(ended) => {
            complain(rt, ended);
            None
        }
    }
}

// A proved loop has to end, and nothing says that the input does: the turns are counted up to a number that no run
// reaches.
fn main(rt: HostRuntime) {
    let mut from = rt.stdin();
    let mut line = [0u8; KEPT];
    let mut session = [0u8; 65536];
    let mut state = State {
        kept: 0,
        progress: Progress { at: 0, count: 0 },
    };
    for _ in 0..u64::MAX {
        let Some(next) = take_some(&rt, &mut from, &mut line, &mut session, state) else {
            return;
        };
        state = next;
    }
}
