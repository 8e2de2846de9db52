// Lists a session as it comes on standard input, from a serial line or a pipe: each line of the listing is written as soon
// as its record is whole, and a refusal as soon as it is certain, though the input stays open. The reading is in `stream`,
// the lines are in `follow`.
#![tactic(auto)]

ghost use Rattle.watch.specs.Feeds.{Feeds};

use session::Place;
use std::io::Read;
use stream::{Standing, Step};

fn write_heading(rt: &(impl Print + Eprint)) -> bool {
    let mut line = [0u8; 40];
    match lines::heading(&mut line) {
        Ok(n) => console::print(rt, &line[..n]),
        Err(_) => false,
    }
}

// Where the step has no line, nothing is written.
fn write_step(rt: &(impl Print + Eprint), step: Step) -> bool {
    let mut line = [0u8; 40];
    match follow::step_line(&mut line, step) {
        Ok(n) => console::print(rt, &line[..n]),
        Err(_) => false,
    }
}

// Lists the records that end in the input.
fn feed(
    rt: &(impl Print + Eprint),
    state: Standing,
    room: &mut [u8],
    input: &[u8],
) -> Option<Standing>
    ensures { Feeds state room.old input.now room.new result }
{
    let mut x = state;
    let mut from = 0;
    loop {
        let step = stream::take_next(x, room, input, from);
        if !write_step(rt, step) {
            return None;
        }
        match step {
            Step::Record(_, place, at) | Step::Offset(place, at) => {
                x = Standing::Open(place, 0);
                from = at;
            }
            Step::Stopped(y) => return Some(y),
        }
    }
}

// One read, and the lines that it ends.
fn take_some(
    rt: &(impl Print + Eprint),
    from: &mut impl Read,
    state: Standing,
    room: &mut [u8],
) -> Option<Standing> {
    let mut input = [0u8; 65536];
    let got = console::read_some(rt, from, &mut input);
    if got.failed {
        return None;
    }
    if got.length == 0 {
        let last = stream::finish(state);
        write_step(rt, Step::Stopped(last));
        return Some(last);
    }
    feed(rt, state, room, &input[..got.length])
}

fn is_open(state: Standing) -> bool {
    matches!(state, Standing::Open(_, _))
}

// A proved loop has to end, and nothing says that the input does: the turns are counted up to a number that no run
// reaches.
fn main(rt: HostRuntime) {
    if !write_heading(&rt) {
        return;
    }
    let mut from = rt.stdin();
    let mut room = [0u8; 62];
    let mut state = Standing::Open(Place { at: 0, offset: 0 }, 0);
    for _ in 0..u64::MAX {
        let Some(x) = take_some(&rt, &mut from, state, &mut room) else {
            return;
        };
        if !is_open(x) {
            return;
        }
        state = x;
    }
}
