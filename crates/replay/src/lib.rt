// A session flown again from its records: one state a vehicle, and one step a record. All is handed in and back by value.
#![tactic(auto)]

ghost use Rattle.std.specs.Prelude.{◌≡◌};
ghost use Rattle.replay.specs.Replay.{vehicle_of, with_of, burn_from, both_of, pair_from, refused_of, state_step, burn_step, mark_step, step_of};

use flight::{Flight, Mu};
use refusal::Refusal;
use session::{BurnRecord, MarkRecord, Record, StateRecord};

// The two vehicles.
#[derive(Clone, Copy)]
pub struct Replay {
    pub v0: Option<Flight>,
    pub v1: Option<Flight>,
}

// What a record came to: a state is set, a burn is done, a mark is off by so much, or a refusal.
#[derive(Clone, Copy)]
pub enum Answer<R = Refusal> {
    Set,
    Done,
    Off(f64),
    Refused(R),
}

#[derive(Clone, Copy)]
pub struct Stepped {
    pub replay: Replay,
    pub answer: Answer,
}

fn vehicle_of(p: Replay, vehicle: u8) -> Option<Flight>
    ensures { result ≡ vehicle_of p vehicle }
{
    if vehicle == 0 { p.v0 } else { p.v1 }
}

// The replay with another state of one vehicle.
fn with(p: Replay, vehicle: u8, f: Flight) -> Replay
    ensures { result ≡ with_of p vehicle f }
{
    if vehicle == 0 {
        Replay { v0: Some(f), ..p }
    } else {
        Replay { v1: Some(f), ..p }
    }
}

// A vehicle through its burn.
fn burn_from(mu: Mu, x: Option<Flight>, r: BurnRecord) -> Result<Flight, Refusal>
    ensures { result ≡ burn_from mu x r }
{
    let f = x.ok_or(Refusal::NotSet)?;
    let g = flight::fly(mu, f, r.time)?;
    flight::burn(g, r.change)
}

// Both vehicles at the time of a mark; vehicle 0's refusal before 1's.
fn fly_both(mu: Mu, a: Flight, b: Flight, time: i64) -> Result<(Flight, Flight), Refusal>
    ensures { result ≡ both_of mu a b time }
{
    if a.body != b.body {
        return Err(Refusal::TwoBodies);
    }
    if flight::too_far(a, time) || flight::too_far(b, time) {
        return Err(Refusal::TimeOutOfRange);
    }
    Ok((flight::fly(mu, a, time)?, flight::fly(mu, b, time)?))
}

fn pair_from(mu: Mu, p: Replay, time: i64) -> Result<(Flight, Flight), Refusal>
    ensures { result ≡ pair_from mu p time }
{
    let a = p.v0.ok_or(Refusal::NotSet)?;
    let b = p.v1.ok_or(Refusal::NotSet)?;
    fly_both(mu, a, b, time)
}

// A refused record leaves the replay as it is.
fn refused(p: Replay, refusal: Refusal) -> Stepped
    ensures { result ≡ refused_of p refusal }
{
    Stepped {
        replay: p,
        answer: Answer::Refused(refusal),
    }
}

fn state_step(p: Replay, r: StateRecord) -> Stepped
    ensures { result ≡ state_step p r }
{
    let f = Flight {
        body: r.body,
        time: r.time,
        state: r.state,
    };
    Stepped {
        replay: with(p, r.vehicle, f),
        answer: Answer::Set,
    }
}

fn burn_step(mu: Mu, p: Replay, r: BurnRecord) -> Stepped
    ensures { result ≡ burn_step mu p r }
{
    match burn_from(mu, vehicle_of(p, r.vehicle), r) {
        Ok(f) => Stepped {
            replay: with(p, r.vehicle, f),
            answer: Answer::Done,
        },
        Err(refusal) => refused(p, refusal),
    }
}

fn mark_step(mu: Mu, p: Replay, r: MarkRecord) -> Stepped
    ensures { result ≡ mark_step mu p r }
{
    match pair_from(mu, p, r.time) {
        Ok((a, b)) => Stepped {
            replay: Replay {
                v0: Some(a),
                v1: Some(b),
            },
            answer: Answer::Off(flight::off(a, b, r.range)),
        },
        Err(why) => refused(p, why),
    }
}

// One record: the vehicles after it, and what it came to.
pub fn step(mu: Mu, p: Replay, r: Record) -> Stepped
    ensures { result ≡ step_of mu p r }
{
    match r {
        Record::State(x) => state_step(p, x),
        Record::Burn(x) => burn_step(mu, p, x),
        Record::Mark(x) => mark_step(mu, p, x),
    }
}
