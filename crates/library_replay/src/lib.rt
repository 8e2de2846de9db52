// The front door for C, as in `library`: one step of a replay, over two vehicles that the caller keeps.
#![tactic(auto)]

ghost use Rattle.std.specs.Prelude.{◌≤◌, ◌≡◌, length};
ghost use Rattle.lent.specs.Given.{Given};
ghost use Rattle.library_replay.specs.Steps.{record_wrong, answered_told, step_in};

use flight::Mu;
use held_replay::{held_wrong, put_held, put_marked, put_states, replay_from};
use library_records::{count_from, record_from};
use replay::{Answer, Replay};

fn record_wrong(kind: u64, vehicle: u8, body: u8) -> bool
    ensures { result ≡ record_wrong kind vehicle body }
{
    if vehicle > 1 {
        return true;
    }
    if kind == 1 {
        return body > 1;
    }
    false
}

fn give_answer(a: Answer, p: Replay, states: &mut [f64], held: &mut [u64]) -> u32
    requires { (13 ≤ length states.old) × (7 ≤ length held.old) }
    ensures { Given (answered_told a p) states.old held.old states.new held.new result }
{
    match a {
        Answer::Set => {
            put_states(states, p);
            put_held(held, 0, p);
            0
        }
        Answer::Done => {
            put_states(states, p);
            put_held(held, 1, p);
            0
        }
        Answer::Off(x) => {
            put_marked(states, p, x);
            put_held(held, 2, p);
            0
        }
        Answer::Refused(n) => n.number(),
    }
}

pub fn cabin_replay_step(
    earth: f64,
    moon: f64,
    kind: u64,
    vehicle: u8,
    body: u8,
    time: i64,
    numbers: &[f64],
    states: &mut [f64],
    held: &mut [u64],
) -> u32
    ensures { Given (step_in (record { earth = earth; moon = moon }) kind vehicle body time numbers.now states.old held.old) states.old held.old states.new held.new result }
{
    if states.len() < 13 {
        return 15;
    }
    if held.len() < 7 {
        return 15;
    }
    if kind < 1 {
        return 13;
    }
    if kind > 3 {
        return 13;
    }
    if numbers.len() < count_from(kind) {
        return 15;
    }
    if record_wrong(kind, vehicle, body) {
        return 14;
    }
    if held_wrong(held) {
        return 14;
    }
    let p = replay_from(states, held);
    let r = record_from(kind, vehicle, body, time, numbers);
    let s = replay::step(Mu { earth, moon }, p, r);
    let a = s.answer;
    let q = s.replay;
    give_answer(a, q, states, held)
}
