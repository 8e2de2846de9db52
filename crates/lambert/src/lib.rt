// Lambert: two positions and a time give a velocity. Here are its tests ahead of the first trial, the judge of a grid
// point, and the velocity at one; the trials themselves are run by `trials`.
#![tactic(auto)]

ghost use Rattle.std.specs.Prelude.{◌≡◌};
ghost use Rattle.table.specs.Tests.{◌▷◌, entries_by, first_failing};
ghost use Rattle.lambert.specs.Lambert.{turn_of, shared_of, transfer_of, position_rows, normal_input, input_row, normal_row, angle_row, derived_row, range_rows, den_of, p_of, arc_of, side_of, reach_at, lambert_judge, lambert_stop, velocity_at, result_row};

use iterator::Judgement;
use reach::{Arc, Reached};
use refusal::{Numbered, Refusal};
use table::{Entry, Limit, Name, Part};
use vector::Vector;

// The short way round from the first position to the second, the long way, or the way round a normal that is given.
#[derive(Clone, Copy)]
pub enum Way {
    Short,
    Long,
    Normal(Vector),
}

// What depends on the way: sinθ and the normal. The size |u1×u2| itself does not.
#[derive(Clone, Copy)]
struct Turn {
    size: f64,
    sin: f64,
    normal: Vector,
}

// What the trials of one solve share: size is |u1×u2|, and cothalf is sinθ/(1 − cosθ).
#[derive(Clone, Copy)]
pub struct Transfer {
    pub mu: f64,
    pub r1: f64,
    pub r2: f64,
    pub rootmu: f64,
    pub rootr1: f64,
    pub ratio: f64,
    pub cos: f64,
    pub size: f64,
    pub sin: f64,
    pub cothalf: f64,
    pub u1: Vector,
    pub normal: Vector,
}

fn turn_of(u1: Vector, u2: Vector, way: Way) -> Turn
    ensures { result ≡ turn_of u1 u2 way }
{
    let h = u1.cross(u2);
    let size = h.length();
    let normal = h / size;
    match way {
        Way::Short => Turn {
            size,
            sin: size,
            normal,
        },
        Way::Long => Turn {
            size,
            sin: -size,
            normal: -normal,
        },
        Way::Normal(n) => Turn {
            size,
            sin: h.dot(n),
            normal: n,
        },
    }
}

fn shared_of(mu: f64, r1: f64, r2: f64, u1: Vector, cos: f64, turn: Turn) -> Transfer
    ensures { result ≡ shared_of mu r1 r2 u1 cos turn }
{
    let normal = turn.normal;
    Transfer {
        mu,
        r1,
        r2,
        rootmu: root::square_root(mu),
        rootr1: root::square_root(r1),
        ratio: r1 / r2,
        cos,
        size: turn.size,
        sin: turn.sin,
        cothalf: reach::cothalf(turn.sin, cos),
        u1,
        normal,
    }
}

pub fn transfer_of(mu: f64, first: Vector, second: Vector, way: Way) -> Transfer
    ensures { result ≡ transfer_of mu first second way }
{
    let r1 = first.length();
    let r2 = second.length();
    let u1 = first / r1;
    let u2 = second / r2;
    let turn = turn_of(u1, u2, way);
    shared_of(mu, r1, r2, u1, u1.dot(u2), turn)
}

// Row 3, of both positions.
#[tactic(auto, using(table::proofs::Laws::told_fails, table::proofs::Laws::told_passes))]
fn position_rows<R: Numbered>(
    t: Result<(), Entry<R>>,
    first: Vector,
    second: Vector,
    d: Transfer,
) -> Result<(), Entry<R>>
    ensures { result ≡ t ▷ entries_by R.given_as (position_rows first second d) }
{
    let a = rows::position_row(t, Name::First, first, d.r1);
    rows::position_row(a, Name::Second, second, d.r2)
}

// Row 1, of a normal that is given.
#[tactic(auto, using(table::proofs::Laws::told_fails, table::proofs::Laws::told_passes))]
fn normal_input(t: Result<(), Entry>, way: Way) -> Result<(), Entry>
    ensures { result ≡ t ▷ normal_input way }
{
    match way {
        Way::Short => t,
        Way::Long => t,
        Way::Normal(n) => rows::finite_vector(t, Name::Normal, n),
    }
}

// Row 1, of mu, the positions, the time and a normal that is given.
pub fn input_row(mu: f64, first: Vector, second: Vector, way: Way, t: f64) -> Result<(), Entry>
    ensures { result ≡ Ok tt ▷ input_row mu first second way t }
{
    let inputs = rows::finite_inputs(mu, Name::First, first, Name::Second, second);
    normal_input(rows::finite_number(inputs, Name::Time, t), way)
}

// Row 10 of a normal that is given: 2^-20 ≤ 1 − cosθ, then the normal's length 1 within 2^-40.
#[tactic(auto, using(table::proofs::Laws::told_fails, table::proofs::Laws::told_passes))]
fn normal_row<R: Numbered>(n: Vector, cos: f64) -> Result<(), Entry<R>>
    ensures { result ≡ Ok tt ▷ entries_by R.given_as (normal_row n cos) }
{
    let least = Limit::AtLeast(9.5367431640625e-7);
    let one = Limit::OneWithin(9.094947017729282e-13);
    let refusal = R::of(Refusal::AngleTooSmall);
    table::test(refusal, Name::Versine, Part::Whole, 1.0 - cos, least)?;
    table::test(refusal, Name::Normal, Part::Length, n.length(), one)
}

// Row 10: 2^-10 ≤ |u1×u2|, or that of the normal.
#[tactic(auto, using(table::proofs::Laws::told_fails, table::proofs::Laws::told_passes))]
fn angle_row<R: Numbered>(t: Result<(), Entry<R>>, way: Way, d: Transfer) -> Result<(), Entry<R>>
    ensures { result ≡ t ▷ entries_by R.given_as (angle_row way d) }
{
    let least = Limit::AtLeast(9.765625e-4);
    let refusal = R::of(Refusal::AngleTooSmall);
    t?;
    match way {
        Way::Short => table::test(refusal, Name::Cross, Part::Whole, d.size, least),
        Way::Long => table::test(refusal, Name::Cross, Part::Whole, d.size, least),
        Way::Normal(n) => normal_row(n, d.cos),
    }
}

// Row 6: r1/r2 < 2^7, then |sinθ/(1−cosθ)| ≤ 2^5.
#[tactic(auto, using(table::proofs::Laws::told_fails, table::proofs::Laws::told_passes))]
fn derived_row<R: Numbered>(t: Result<(), Entry<R>>, d: Transfer) -> Result<(), Entry<R>>
    ensures { result ≡ t ▷ entries_by R.given_as (derived_row d) }
{
    let limit = Limit::Under(128.0);
    let refusal = R::of(Refusal::DerivedOutOfRange);
    t?;
    let ratio = table::test(refusal, Name::Ratio, Part::Whole, d.ratio, limit);
    reach::cothalf_row(ratio, d.cothalf)
}

// Rows 2, 3, 5, 10 and 6.
pub fn range_rows<R: Numbered>(
    test: Result<(), Entry<R>>,
    mu: f64,
    first: Vector,
    second: Vector,
    way: Way,
    t: f64,
    d: Transfer,
) -> Result<(), Entry<R>>
    ensures { result ≡ test ▷ entries_by R.given_as (range_rows mu first second way t d) }
{
    let a = position_rows(rows::mu_row(test, mu), first, second, d);
    let b = angle_row(rows::transfer_time_row(a, t), way, d);
    derived_row(b, d)
}

fn den_at(d: Transfer, cot: f64) -> f64
    ensures { result ≡ den_of d cot }
{
    (d.ratio - d.cos) + d.sin * cot
}

fn p_at(d: Transfer, cot: f64) -> f64
    ensures { result ≡ p_of d cot }
{
    (1.0 - d.cos) / den_at(d, cot)
}

// Step 3, and what steps 4 to 7 are given.
fn arc_at(d: Transfer, p: f64, cot: f64) -> Arc
    ensures { result ≡ arc_of d p cot }
{
    Arc {
        r1: d.r1,
        rootr1: d.rootr1,
        rootmu: d.rootmu,
        p,
        cot,
        alpha: 2.0 - p * (1.0 + cot * cot),
        cothalf: d.cothalf,
    }
}

// Where a step gives no p: under if sinθ > 0, else over. A sinθ of 0, which only a normal that is given can make,
// counts as positive.
fn side(sin: f64, name: Name, amount: f64, limit: Limit) -> Reached
    ensures { result ≡ side_of sin name amount limit }
{
    if 0.0 <= sin {
        return Reached::Under(conic::range_test(Refusal::TooShort, name, amount, limit));
    }
    Reached::Over(conic::range_test(Refusal::TooLong, name, amount, limit))
}

// Steps 1 to 7.
fn reach_at(d: Transfer, cot: f64) -> Reached
    ensures { result ≡ reach_at d cot }
{
    let den = den_at(d, cot);
    if !(0.0 < den) {
        return side(d.sin, Name::Den, den, Limit::Over(0.0));
    }
    let p = p_at(d, cot);
    if !(p <= 16.0) {
        return side(d.sin, Name::P, p, Limit::AtMost(16.0));
    }
    reach::reach_of(arc_at(d, p, cot))
}

// The judgement of grid point n.
pub fn judge(d: Transfer, asked: f64, n: i64) -> Judgement
    ensures { result ≡ lambert_judge d asked n }
{
    match reach_at(d, conic::grid(n)) {
        Reached::Time(t) => iterator::judged(asked, t),
        Reached::Under(_) => Judgement::Under,
        Reached::Over(_) => Judgement::Over,
    }
}

// Why a grid point is under or over: the range test that fails; passed where it has a time.
#[tactic(auto, unfolding(crate::specs::Lambert::stopped_by))]
pub fn stop_at(d: Transfer, n: i64) -> Result<(), Entry>
    ensures { result ≡ lambert_stop d n }
{
    match reach_at(d, conic::grid(n)) {
        Reached::Time(_) => Ok(()),
        Reached::Under(e) => Err(e),
        Reached::Over(e) => Err(e),
    }
}

// The velocity at grid point n.
pub fn velocity_at(d: Transfer, n: i64) -> Vector
    ensures { result ≡ velocity_at d n }
{
    let cot = conic::grid(n);
    let k = root::square_root(d.mu * p_at(d, cot) / d.r1);
    let u1 = d.u1;
    let normal = d.normal;
    let along = cot * u1;
    k * (along + normal.cross(u1))
}

// Row 9, of the velocity.
pub fn result_row(v: Vector) -> Result<(), Entry>
    ensures { result ≡ first_failing (result_row v) }
{
    let refusal = Refusal::ResultOutOfRange;
    rows::velocity_components(Ok(()), refusal, Name::Velocity, v)
}
