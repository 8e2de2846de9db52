// The two vehicles of a replay in lent arrays, read and put there again.
#![tactic(auto)]

ghost use Rattle.std.specs.Prelude.{◌≤◌, ◌≡◌, [], ◌∷◌, take};
ghost use Rattle.field.specs.Bytes.{bits_of};
ghost use Rattle.lent.specs.Given.{put_in};
ghost use Rattle.held_replay.specs.Held.{set_in, body_in, vehicle_time, state_held, body_from, vehicle_from, second_in};
ghost use Rattle.held_replay.specs.Held.{replay_from, held_wholes, held_numbers, held_wrong};

use field::bits_of;
use flight::Flight;
use lent::{put_numbers, put_wholes, state_in, word_at};
use replay::Replay;
use vector::State;

// The second state of a lent array: the first of what stands behind six numbers.
fn second_in(s: &[f64]) -> State
    ensures { result ≡ second_in s.now }
{
    if s.len() < 6 {
        return state_in(&s[..0]);
    }
    state_in(&s[6..])
}

fn body_from(n: u64) -> u8
    ensures { result ≡ body_from n }
{
    if n == 0 { 0 } else { 1 }
}

fn vehicle_from(set: u64, body: u64, time: u64, state: State) -> Option<Flight>
    ensures { result ≡ vehicle_from set body time state }
{
    if set == 0 {
        return None;
    }
    let b = body_from(body);
    let t = field::signed(time);
    Some(Flight {
        body: b,
        time: t,
        state,
    })
}

pub fn replay_from(states: &[f64], held: &[u64]) -> Replay
    ensures { result ≡ replay_from states.now held.now }
{
    let first = state_in(states);
    let second = second_in(states);
    let v0 = vehicle_from(word_at(held, 1), word_at(held, 2), word_at(held, 3), first);
    let v1 = vehicle_from(word_at(held, 4), word_at(held, 5), word_at(held, 6), second);
    Replay { v0, v1 }
}

fn set_in(v: Option<Flight>) -> u64
    ensures { result ≡ set_in v }
{
    u64::from(v.is_some())
}

fn body_in(v: Option<Flight>) -> u64
    ensures { result ≡ body_in v }
{
    v.map_or(0, |f| u64::from(f.body))
}

fn time_in(v: Option<Flight>) -> u64
    ensures { result ≡ vehicle_time v }
{
    v.map_or(0, |f| bits_of(f.time))
}

fn state_held(v: Option<Flight>) -> State
    ensures { result ≡ state_held v }
{
    let nowhere = State {
        rx: 0.0,
        ry: 0.0,
        rz: 0.0,
        vx: 0.0,
        vy: 0.0,
        vz: 0.0,
    };
    v.map_or(nowhere, |f| f.state)
}

// The first n of: the states of both, and behind them by how much a mark is off.
fn put_first(states: &mut [f64], p: Replay, off: f64, n: usize)
    requires { n ≤ 13 }
    ensures { states.new ≡ put_in (take n (held_numbers p (off ∷ []))) states.old }
{
    let v0 = p.v0;
    let v1 = p.v1;
    let a = state_held(v0);
    let b = state_held(v1);
    let xs = [
        a.rx, a.ry, a.rz, a.vx, a.vy, a.vz, b.rx, b.ry, b.rz, b.vx, b.vy, b.vz, off,
    ];
    put_numbers(states, &xs[..n]);
}

// The states of both.
pub fn put_states(states: &mut [f64], p: Replay)
    ensures { states.new ≡ put_in (held_numbers p []) states.old }
{
    put_first(states, p, 0.0, 12);
}

// And behind them by how much a mark is off.
pub fn put_marked(states: &mut [f64], p: Replay, off: f64)
    ensures { states.new ≡ put_in (held_numbers p (off ∷ [])) states.old }
{
    put_first(states, p, off, 13);
}

// The case, and what is held of both beside their states.
pub fn put_held(held: &mut [u64], case: u64, p: Replay)
    ensures { held.new ≡ put_in (held_wholes case p) held.old }
{
    let v0 = p.v0;
    let v1 = p.v1;
    let zs = [
        case,
        set_in(v0),
        body_in(v0),
        time_in(v0),
        set_in(v1),
        body_in(v1),
        time_in(v1),
    ];
    put_wholes(held, &zs);
}

// Whether a vehicle is neither set nor not, or its body is none.
pub fn held_wrong(held: &[u64]) -> bool
    ensures { result ≡ held_wrong held.now }
{
    if word_at(held, 1) > 1 {
        return true;
    }
    if word_at(held, 2) > 1 {
        return true;
    }
    if word_at(held, 4) > 1 {
        return true;
    }
    word_at(held, 5) > 1
}
