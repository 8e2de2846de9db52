// The sight line of an elevation: where it comes as near to the centre as the passive vehicle is.
#![tactic(auto)]

ghost use Rattle.std.specs.Prelude.{◌≡◌};
ghost use Rattle.table.specs.Tests.{◌▷◌};
ghost use Rattle.sight.specs.Sight.{elevated_of, line_of, sight_point, points_of, finite_row, position_rows, wheel_row, unit_row, input_tests, radicand_row, answered, sight_of};

use refusal::Refusal;
use table::{Entry, Limit, Name, Part};
use vector::Vector;
use wheel::Direction;

// The sight line's unit vector u, b = A·u, and what stands under the root.
#[derive(Clone, Copy)]
struct Line {
    u: Vector,
    b: f64,
    radicand: f64,
}

// Both k, the larger first, and their points.
#[derive(Clone, Copy)]
pub struct Points {
    pub larger: f64,
    pub smaller: f64,
    pub first: Vector,
    pub second: Vector,
}

// u = cosE·horizontal + sinE·vertical.
fn elevated(d: Direction, h: Vector, v: Vector) -> Vector
    ensures { result ≡ elevated_of d h v }
{
    d.cosine * h + d.sine * v
}

// b = A·u, radicand = b·b − (A·A − P·P).
fn line_of(a: Vector, p: Vector, u: Vector) -> Line
    ensures { result ≡ line_of a p u }
{
    let b = a.dot(u);
    let radicand = b * b - (a.dot(a) - p.dot(p));
    Line { u, b, radicand }
}

// A + k·u.
fn point(a: Vector, k: f64, u: Vector) -> Vector
    ensures { result ≡ sight_point a k u }
{
    a + k * u
}

// Row 1: the positions, then the axes.
#[tactic(auto, using(table::proofs::Laws::told_fails, table::proofs::Laws::told_passes))]
fn finite_row(a: Vector, p: Vector, h: Vector, v: Vector) -> Result<(), Entry>
    ensures { result ≡ Ok tt ▷ finite_row a p h v }
{
    let active = rows::finite_vector(Ok(()), Name::Active, a);
    let both = rows::finite_vector(active, Name::Passive, p);
    let horizontal = rows::finite_vector(both, Name::Horizontal, h);
    rows::finite_vector(horizontal, Name::Vertical, v)
}

// Row 3, of either position.
#[tactic(auto, using(table::proofs::Laws::told_fails, table::proofs::Laws::told_passes))]
fn position_rows(a: Vector, p: Vector) -> Result<(), Entry>
    ensures { result ≡ Ok tt ▷ position_rows a p }
{
    let active = rows::position_row(Ok(()), Name::Active, a, a.length());
    rows::position_row(active, Name::Passive, p, p.length())
}

// Row 16: E at most 3,599.
fn wheel_row(e: u64) -> Result<(), Entry>
    ensures { result ≡ Ok tt ▷ wheel_row e }
{
    let tenths = std::num::nearest_u64_to_f64(e);
    let most = Limit::AtMost(3599.0);
    table::test(
        Refusal::ElevationOutOfRange,
        Name::Elevation,
        Part::Whole,
        tenths,
        most,
    )
}

// Row 17: of length 1 within 2^-40.
fn unit_row(name: Name, a: Vector) -> Result<(), Entry>
    ensures { result ≡ Ok tt ▷ unit_row name a }
{
    let length = a.length();
    table::test(
        Refusal::NotUnit,
        name,
        Part::Length,
        length,
        Limit::OneWithin(9.094947017729282e-13),
    )
}

// Rows 1, 3, 16 and 17.
#[tactic(auto, using(table::proofs::Laws::told_fails, table::proofs::Laws::told_passes))]
fn input_tests(a: Vector, p: Vector, e: u64, h: Vector, v: Vector) -> Result<(), Entry>
    ensures { result ≡ Ok tt ▷ input_tests a p e h v }
{
    finite_row(a, p, h, v)?;
    position_rows(a, p)?;
    wheel_row(e)?;
    unit_row(Name::Horizontal, h)?;
    unit_row(Name::Vertical, v)
}

// Row 18: the radicand is not negative.
fn radicand_row(l: Line) -> Result<(), Entry>
    ensures { result ≡ Ok tt ▷ radicand_row l }
{
    table::test(
        Refusal::NoCrossing,
        Name::Radicand,
        Part::Whole,
        l.radicand,
        Limit::AtLeast(0.0),
    )
}

// k = −b ± √radicand, and the points at both.
fn both_points(a: Vector, l: Line) -> Points
    ensures { result ≡ points_of a l }
{
    let root = root::square_root(l.radicand);
    let larger = -l.b + root;
    let smaller = -l.b - root;
    let u = l.u;
    Points {
        larger,
        smaller,
        first: point(a, larger, u),
        second: point(a, smaller, u),
    }
}

// Both points, unless row 18 refuses.
#[tactic(auto, unfolding(crate::specs::Sight::answered))]
fn crossed(a: Vector, l: Line) -> Result<Points, Refusal>
    ensures { result ≡ answered (Ok tt ▷ radicand_row l) a l }
{
    match radicand_row(l) {
        Ok(()) => Ok(both_points(a, l)),
        Err(f) => Err(f.refusal),
    }
}

// The sight line from the active position a, at the elevation e over the horizontal h, and its points at the passive
// position's distance. Past the tests the wheel refuses nothing.
pub fn crossings(a: Vector, p: Vector, e: u64, h: Vector, v: Vector) -> Result<Points, Refusal>
    ensures { result ≡ sight_of a p e h v }
{
    if let Err(f) = input_tests(a, p, e, h, v) {
        return Err(f.refusal);
    }
    let d = wheel::wheel(e)?;
    crossed(a, line_of(a, p, elevated(d, h, v)))
}
