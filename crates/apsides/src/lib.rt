// Periapo: the two apsides of a state's orbit.
#![tactic(auto)]

ghost use Rattle.std.specs.Prelude.{◌≡◌};
ghost use Rattle.table.specs.Tests.{◌▷◌, first_failing};
ghost use Rattle.apsides.specs.Apsides.{radicand_of, shape_of, derived_row, apsides_tests, distances_of, apsides_of};

use refusal::Refusal;
use table::{Entry, Limit, Name, Part};
use vector::State;

// Closed with near and far, open with near only, or refused.
#[derive(Clone, Copy)]
pub enum Apsides<R = Refusal> {
    Closed(f64, f64),
    Open(f64),
    Refused(R),
}

// The derived numbers.
#[derive(Clone, Copy)]
pub struct Shape {
    pub r1: f64,
    pub c2: f64,
    pub alpha: f64,
    pub p: f64,
    pub pn: f64,
    pub e: f64,
}

// x, and 0 where it is negative.
fn radicand(x: f64) -> f64
    ensures { result ≡ radicand_of x }
{
    if x < 0.0 {
        return 0.0;
    }
    x
}

pub fn shape_of(mu: f64, s: State) -> Shape
    ensures { result ≡ shape_of mu s }
{
    let r = s.position();
    let v = s.velocity();
    let r1 = r.length();
    let c2 = conic::c2(r1, v, mu);
    let p = conic::p(r.cross(v), mu);
    let alpha = 1.0 - c2;
    let pn = p / r1;
    let e = root::square_root(radicand(1.0 - pn * alpha));
    Shape {
        r1,
        c2,
        alpha,
        p,
        pn,
        e,
    }
}

// Row 6: |c2| < 2^6, p_N ≤ 2^4, e < 2^3.
#[tactic(auto, using(table::proofs::Laws::told_fails, table::proofs::Laws::told_passes))]
fn derived_row(t: Result<(), Entry>, d: Shape) -> Result<(), Entry>
    ensures { result ≡ t ▷ derived_row d }
{
    conic::p_row(conic::c2_row(t, d.c2), d.pn)?;
    table::test(
        Refusal::DerivedOutOfRange,
        Name::E,
        Part::Whole,
        d.e,
        Limit::Under(8.0),
    )
}

// Rows 1 to 4, 6 and 19.
#[tactic(auto, using(table::proofs::Laws::told_fails, table::proofs::Laws::told_passes))]
pub fn tests(mu: f64, s: State, d: Shape) -> Result<(), Entry>
    ensures { result ≡ first_failing (apsides_tests mu s d) }
{
    let r = s.position();
    let v = s.velocity();
    let inputs = rows::finite_inputs(mu, Name::Position, r, Name::Velocity, v);
    let states = rows::state_rows(inputs, mu, s, d.r1);
    conic::straight_row(derived_row(states, d), d.pn)
}

fn distances(d: Shape) -> Apsides
    ensures { result ≡ distances_of d }
{
    let near = d.p / (1.0 + d.e);
    let far = d.p / (1.0 - d.e);
    if (0.0 < d.alpha) & (0.0 < 1.0 - d.e) & (far < 536870912.0) {
        return Apsides::Closed(near, far);
    }
    Apsides::Open(near)
}

// The apsides of the orbit through s.
pub fn periapo(mu: f64, s: State) -> Apsides
    ensures { result ≡ apsides_of mu s }
{
    let d = shape_of(mu, s);
    match tests(mu, s, d) {
        Ok(()) => distances(d),
        Err(f) => Apsides::Refused(f.refusal),
    }
}
