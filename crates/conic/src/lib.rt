// What the conic routines share: the grid, two derived numbers with their rows, and the time of a trial.
#![tactic(auto)]

ghost use Rattle.std.specs.Prelude.{◌≡◌};
ghost use Rattle.table.specs.Tests.{◌▷◌, entries_by};
ghost use Rattle.conic.specs.Conic.{grid_of, c2_of, p_of, p_n_of, c2_row, p_row, straight_row, time_of, range_test, outside_of, point_at};

use refusal::{Numbered, Refusal};
use table::{Entry, Limit, Name, Part};
use vector::Vector;

// What the trials of one solve share.
#[derive(Clone, Copy)]
pub struct Orbit {
    pub r1: f64,
    pub rootmu: f64,
    pub c1: f64,
    pub c2: f64,
}

// The numbers of one trial, z = x·x and the time t among them.
#[derive(Clone, Copy)]
pub struct Point {
    pub x: f64,
    pub z: f64,
    pub xi: f64,
    pub c: f64,
    pub s: f64,
    pub t: f64,
}

// n·2^-20: the grid of Kepler's x and of Lambert's cot.
pub fn grid(n: i64) -> f64
    ensures { result ≡ grid_of n }
{
    real::nearest(n) * 9.5367431640625e-7
}

// c2 of a state, from r1 = |r|.
pub fn c2(r1: f64, v: Vector, mu: f64) -> f64
    ensures { result ≡ c2_of r1 v mu }
{
    r1 * v.dot(v) / mu - 1.0
}

// p of a state, from h = r×v.
pub fn p(h: Vector, mu: f64) -> f64
    ensures { result ≡ p_of h mu }
{
    h.dot(h) / mu
}

// p_N of a state: p over r1 = |r|.
pub fn pn(h: Vector, mu: f64, r1: f64) -> f64
    ensures { result ≡ p_n_of h mu r1 }
{
    p(h, mu) / r1
}

// Row 6 for c2: |c2| < 2^6.
#[tactic(auto, using(table::proofs::Laws::told_fails, table::proofs::Laws::told_passes))]
pub fn c2_row<R: Numbered>(t: Result<(), Entry<R>>, c2: f64) -> Result<(), Entry<R>>
    ensures { result ≡ t ▷ entries_by R.given_as (c2_row c2) }
{
    let limit = Limit::SizeUnder(64.0);
    t?;
    table::test(
        R::of(Refusal::DerivedOutOfRange),
        Name::C2,
        Part::Whole,
        c2,
        limit,
    )
}

// Row 6 for p_N = p/r: p_N ≤ 2^4.
#[tactic(auto, using(table::proofs::Laws::told_fails, table::proofs::Laws::told_passes))]
pub fn p_row<R: Numbered>(t: Result<(), Entry<R>>, pn: f64) -> Result<(), Entry<R>>
    ensures { result ≡ t ▷ entries_by R.given_as (p_row pn) }
{
    let limit = Limit::AtMost(16.0);
    t?;
    table::test(
        R::of(Refusal::DerivedOutOfRange),
        Name::P,
        Part::Whole,
        pn,
        limit,
    )
}

// Row 19: 2^-20 ≤ p_N. Under it a state has almost no sideways speed, and falls straight.
#[tactic(auto, using(table::proofs::Laws::told_fails, table::proofs::Laws::told_passes))]
pub fn straight_row<R: Numbered>(t: Result<(), Entry<R>>, pn: f64) -> Result<(), Entry<R>>
    ensures { result ≡ t ▷ entries_by R.given_as (straight_row pn) }
{
    let limit = Limit::AtLeast(9.5367431640625e-7);
    t?;
    table::test(
        R::of(Refusal::StraightFall),
        Name::P,
        Part::Whole,
        pn,
        limit,
    )
}

// The time at x, with c and s at its ξ and z = x·x.
fn time(o: Orbit, x: f64, z: f64, c: f64, s: f64) -> f64
    ensures { result ≡ time_of o x z c s }
{
    (o.c1 * (z * c) + x * (o.c2 * (z * s) + o.r1)) / o.rootmu
}

// A range test that stops a trial: 7 where it is over, 8 where it is under.
pub fn range_test<R: Numbered>(refusal: R, name: Name, amount: f64, limit: Limit) -> Entry<R>
    ensures { result ≡ range_test refusal name amount limit }
{
    Entry {
        refusal,
        name,
        part: Part::Whole,
        amount,
        limit,
    }
}

// The one that a ξ outside −50..40 fails.
fn outside(xi: f64) -> Entry
    ensures { result ≡ outside_of xi }
{
    if -50.0 <= xi {
        return range_test(Refusal::TooLong, Name::Xi, xi, Limit::AtMost(40.0));
    }
    range_test(Refusal::TooLong, Name::Xi, xi, Limit::AtLeast(-50.0))
}

// The numbers of the trial at x, whose ξ is given.
pub fn point_at(o: Orbit, x: f64, xi: f64) -> Result<Point, Entry>
    ensures { result ≡ point_at o x xi }
{
    let z = x * x;
    let Ok(p) = series::c_and_s(xi) else {
        return Err(outside(xi));
    };
    let t = time(o, x, z, p.c, p.s);
    Ok(Point {
        x,
        z,
        xi,
        c: p.c,
        s: p.s,
        t,
    })
}
