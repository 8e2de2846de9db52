// Why a solve by trials refuses, or that it does not: the solve's own tests and trials, told. No test and no formula stands here.
#![tactic(auto)]

ghost use Rattle.std.specs.Prelude.{◌≡◌};
ghost use Rattle.iterator.specs.Single.{more_left};
ghost use Rattle.iterator.specs.Run.{more};
ghost use Rattle.why.specs.Why.{short_by, told_of, told_advance, told_transfer, why_advance, why_transfer};

use iterator::{Beginning, Bracket, Judgement};
use kepler::Motion;
use lambert::{Transfer, Way};
use problem::Problem;
use reason::{Neighbours, Reason};
use trials::Ended;
use vector::{State, Vector};

// The lower neighbour has no time. Kepler's always has one, so that its case does not come up; the solve answers 7 there.
fn short_of(problem: Problem, b: Bracket) -> Reason
    ensures { result ≡ short_by problem b }
{
    let stop = problem::stop_at(problem, b.lo);
    match problem {
        Problem::Kepler(_) => Reason::TooLong(b, stop),
        Problem::Lambert(_) => Reason::TooShort(b, stop),
    }
}

// What the bracket that the trials end on comes to.
fn tell(problem: Problem, b: Bracket) -> Result<Neighbours, Reason>
    requires { more_left b.lo b.hi ≡ more b }
    ensures { result ≡ told_of problem b }
{
    if iterator::more_left(b.lo, b.hi) {
        return Err(Reason::NotFinished(b));
    }
    let lower = b.below;
    let upper = b.above;
    let Judgement::Low(below) = lower else {
        return Err(short_of(problem, b));
    };
    let Judgement::High(above) = upper else {
        return Err(Reason::TooLong(b, problem::stop_at(problem, b.hi)));
    };
    Ok(Neighbours {
        lo: b.lo,
        below,
        hi: b.hi,
        above,
        count: b.count,
    })
}

// Row 9 of the state at the lower neighbour.
#[tactic(auto, unfolding(crate::specs::Why::told_advance, crate::specs::Why::arrival_reason))]
fn told_advance(m: Motion, from: State, x: Result<Neighbours, Reason>) -> Reason
    ensures { result ≡ told_advance m from x }
{
    match x {
        Err(r) => r,
        Ok(n) => match kepler::arrive(m, from, n.lo) {
            Ok(_) => Reason::Between(n),
            Err(e) => Reason::Test(e),
        },
    }
}

// Row 9 of the velocity there.
#[tactic(auto, unfolding(crate::specs::Why::told_transfer, crate::specs::Why::velocity_reason))]
fn told_transfer(d: Transfer, x: Result<Neighbours, Reason>) -> Reason
    ensures { result ≡ told_transfer d x }
{
    match x {
        Err(r) => r,
        Ok(n) => match lambert::result_row(lambert::velocity_at(d, n.lo)) {
            Ok(()) => Reason::Between(n),
            Err(f) => Reason::Test(f),
        },
    }
}

// Of an advance.
#[tactic(auto, unfolding(crate::specs::Why::advance_reason))]
pub fn advance(mu: f64, s: State, t: f64, limit: u64, g: Beginning) -> Reason
    ensures { result ≡ why_advance mu s t limit g }
{
    match solve::advance_ended(mu, s, t, limit, g) {
        Ended::Refused(e) => Reason::Test(e),
        Ended::Wrong(a) => Reason::Amiss(a),
        Ended::At(b) => {
            let from = kepler::turned(t, s);
            let m = kepler::motion_of(mu, from);
            told_advance(m, from, tell(Problem::Kepler(m), b))
        }
    }
}

// Of a transfer velocity.
#[tactic(auto, unfolding(crate::specs::Why::transfer_reason))]
pub fn transfer_velocity(
    mu: f64,
    first: Vector,
    second: Vector,
    way: Way,
    t: f64,
    limit: u64,
    g: Beginning,
) -> Reason
    ensures { result ≡ why_transfer mu first second way t limit g }
{
    match solve::transfer_ended(mu, first, second, way, t, limit, g) {
        Ended::Refused(e) => Reason::Test(e),
        Ended::Wrong(a) => Reason::Amiss(a),
        Ended::At(b) => {
            let d = lambert::transfer_of(mu, first, second, way);
            told_transfer(d, tell(Problem::Lambert(d), b))
        }
    }
}
