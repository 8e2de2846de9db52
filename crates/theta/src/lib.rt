// Time-Theta: a state and an angle give the time from the one end of the angle to the other.
#![tactic(auto)]

ghost use Rattle.std.specs.Prelude.{◌≡◌};
ghost use Rattle.table.specs.Tests.{◌▷◌, first_failing};
ghost use Rattle.theta.specs.Theta.{sweep_of, input_rows, angle_row, derived_row, theta_tests, arc_of, transfer_time_by, theta_of};

use reach::{Arc, Reached};
use refusal::Refusal;
use table::{Entry, Limit, Name, Part};
use vector::State;

// The derived numbers: excess is (cos² + sin²) − 1, versine is 1 − cos, pn is p_N, and cothalf is sin/(1 − cos).
#[derive(Clone, Copy)]
pub struct Sweep {
    pub r1: f64,
    pub excess: f64,
    pub versine: f64,
    pub c2: f64,
    pub cot: f64,
    pub pn: f64,
    pub cothalf: f64,
}

// The time, and the state it was asked about, unchanged.
#[derive(Clone, Copy)]
pub struct Timed {
    pub time: f64,
    pub state: State,
}

// A time, too long, too short, or refused.
#[derive(Clone, Copy)]
pub enum TransferTime<R = Refusal> {
    Time(Timed),
    TooLong,
    TooShort,
    Refused(R),
}

pub fn sweep_of(mu: f64, s: State, sin: f64, cos: f64) -> Sweep
    ensures { result ≡ sweep_of mu s sin cos }
{
    let r = s.position();
    let v = s.velocity();
    let r1 = r.length();
    let h = r.cross(v);
    Sweep {
        r1,
        excess: (cos * cos + sin * sin) - 1.0,
        versine: 1.0 - cos,
        c2: conic::c2(r1, v, mu),
        cot: r.dot(v) / h.length(),
        pn: conic::pn(h, mu, r1),
        cothalf: reach::cothalf(sin, cos),
    }
}

// Row 10: |(cos²+sin²)−1| ≤ 2^-40, then 2^-20 ≤ 1−cos.
#[tactic(auto, using(table::proofs::Laws::told_fails, table::proofs::Laws::told_passes))]
fn angle_row(d: Sweep) -> Result<(), Entry>
    ensures { result ≡ Ok tt ▷ angle_row d }
{
    let most = Limit::SizeAtMost(9.094947017729282e-13);
    let least = Limit::AtLeast(9.5367431640625e-7);
    table::test(
        Refusal::AngleTooSmall,
        Name::Excess,
        Part::Whole,
        d.excess,
        most,
    )?;
    table::test(
        Refusal::AngleTooSmall,
        Name::Versine,
        Part::Whole,
        d.versine,
        least,
    )
}

// Row 6: |c2| < 2^6, |cot γ| ≤ 2^5, p_N ≤ 2^4, then |sin/(1−cos)| ≤ 2^5.
#[tactic(auto, using(table::proofs::Laws::told_fails, table::proofs::Laws::told_passes))]
fn derived_row(t: Result<(), Entry>, d: Sweep) -> Result<(), Entry>
    ensures { result ≡ t ▷ derived_row d }
{
    conic::c2_row(t, d.c2)?;
    let cot = table::test(
        Refusal::DerivedOutOfRange,
        Name::Cot,
        Part::Whole,
        d.cot,
        Limit::SizeAtMost(32.0),
    );
    reach::cothalf_row(conic::p_row(cot, d.pn), d.cothalf)
}

// Rows 1 to 4, from r1 = |r|.
#[tactic(auto, using(table::proofs::Laws::told_fails, table::proofs::Laws::told_passes))]
fn input_rows(mu: f64, s: State, sin: f64, cos: f64, r1: f64) -> Result<(), Entry>
    ensures { result ≡ Ok tt ▷ input_rows mu s sin cos r1 }
{
    let r = s.position();
    let v = s.velocity();
    let inputs = rows::finite_inputs(mu, Name::Position, r, Name::Velocity, v);
    let sine = rows::finite_number(inputs, Name::Sin, sin);
    let cosine = rows::finite_number(sine, Name::Cos, cos);
    rows::state_rows(cosine, mu, s, r1)
}

// Rows 1 to 4, 10, 6 and 19.
#[tactic(auto, using(table::proofs::Laws::told_fails, table::proofs::Laws::told_passes))]
pub fn tests(mu: f64, s: State, sin: f64, cos: f64, d: Sweep) -> Result<(), Entry>
    ensures { result ≡ first_failing (theta_tests mu s sin cos d) }
{
    input_rows(mu, s, sin, cos, d.r1)?;
    let angle = angle_row(d);
    conic::straight_row(derived_row(angle, d), d.pn)
}

// What steps 4 to 7 are given.
pub fn arc_of(mu: f64, d: Sweep) -> Arc
    ensures { result ≡ arc_of mu d }
{
    Arc {
        r1: d.r1,
        rootr1: root::square_root(d.r1),
        rootmu: root::square_root(mu),
        p: d.pn,
        cot: d.cot,
        alpha: 1.0 - d.c2,
        cothalf: d.cothalf,
    }
}

// Over is too long, under too short.
fn transfer_time_by(s: State, r: Reached) -> TransferTime
    ensures { result ≡ transfer_time_by s r }
{
    match r {
        Reached::Time(time) => TransferTime::Time(Timed { time, state: s }),
        Reached::Under(_) => TransferTime::TooShort,
        Reached::Over(_) => TransferTime::TooLong,
    }
}

// The time from the state through the angle of this sine and cosine.
pub fn time_theta(mu: f64, s: State, sin: f64, cos: f64) -> TransferTime
    ensures { result ≡ theta_of mu s sin cos }
{
    let d = sweep_of(mu, s, sin, cos);
    match tests(mu, s, sin, cos, d) {
        Ok(()) => transfer_time_by(s, reach::reach_of(arc_of(mu, d))),
        Err(f) => TransferTime::Refused(f.refusal),
    }
}
