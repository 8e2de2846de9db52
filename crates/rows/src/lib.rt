// Rows 1 to 5 of the refusal table, which look at an input alone, the components that row 9 looks at too, and the radius of
// row 22. Each but `finite_inputs` takes what the tests before it came to, and hands on the one that failed.
#![tactic(auto, using(table::proofs::Laws::told_fails, table::proofs::Laws::told_passes))]

ghost use Rattle.std.specs.Prelude.{◌≡◌};
ghost use Rattle.table.specs.Tests.{◌▷◌, entries_by};
ghost use Rattle.rows.specs.Rows.{finite_number, finite_vector, finite_inputs, mu_row, position_components, position_row, velocity_components, state_rows, time_row, transfer_time_row, radius_row};

use refusal::{Numbered, Refusal};
use table::{Entry, Limit, Name, Part};
use vector::{State, Vector};

// Row 1, of a number and of a vector.
pub fn finite_number<R: Numbered>(
    t: Result<(), Entry<R>>,
    name: Name,
    x: f64,
) -> Result<(), Entry<R>>
    ensures { result ≡ t ▷ entries_by R.given_as (finite_number name x) }
{
    let limit = Limit::Finite;
    t?;
    table::test(R::of(Refusal::NotFinite), name, Part::Whole, x, limit)
}

pub fn finite_vector<R: Numbered>(
    t: Result<(), Entry<R>>,
    name: Name,
    a: Vector,
) -> Result<(), Entry<R>>
    ensures { result ≡ t ▷ entries_by R.given_as (finite_vector name a) }
{
    let refusal = R::of(Refusal::NotFinite);
    t?;
    table::test(refusal, name, Part::X, a.x, Limit::Finite)?;
    table::test(refusal, name, Part::Y, a.y, Limit::Finite)?;
    table::test(refusal, name, Part::Z, a.z, Limit::Finite)
}

// Row 1, of mu, the two vectors of a state or of a transfer, in the order written: here the tests of a routine begin.
pub fn finite_inputs(mu: f64, first: Name, a: Vector, second: Name, b: Vector) -> Result<(), Entry>
    ensures { result ≡ Ok tt ▷ finite_inputs mu first a second b }
{
    let t = finite_number(Ok(()), Name::Mu, mu);
    finite_vector(finite_vector(t, first, a), second, b)
}

// Row 2.
pub fn mu_row<R: Numbered>(t: Result<(), Entry<R>>, mu: f64) -> Result<(), Entry<R>>
    ensures { result ≡ t ▷ entries_by R.given_as (mu_row mu) }
{
    let refusal = R::of(Refusal::MuOutOfRange);
    let least = Limit::AtLeast(268435456.0);
    let most = Limit::Under(68719476736.0);
    t?;
    table::test(refusal, Name::Mu, Part::Whole, mu, least)?;
    table::test(refusal, Name::Mu, Part::Whole, mu, most)
}

// Each component of a position under 2^29 in size.
pub fn position_components<R: Numbered>(
    t: Result<(), Entry<R>>,
    refusal: R,
    name: Name,
    r: Vector,
) -> Result<(), Entry<R>>
    ensures { result ≡ t ▷ position_components refusal name r }
{
    let limit = Limit::SizeUnder(536870912.0);
    t?;
    table::test(refusal, name, Part::X, r.x, limit)?;
    table::test(refusal, name, Part::Y, r.y, limit)?;
    table::test(refusal, name, Part::Z, r.z, limit)
}

// Row 3, of a position and its length.
pub fn position_row<R: Numbered>(
    t: Result<(), Entry<R>>,
    name: Name,
    r: Vector,
    length: f64,
) -> Result<(), Entry<R>>
    ensures { result ≡ t ▷ entries_by R.given_as (position_row name r length) }
{
    let refusal = R::of(Refusal::PositionOutOfRange);
    let shortest = Limit::AtLeast(262144.0);
    let longest = Limit::Under(536870912.0);
    position_components(t, refusal, name, r)?;
    table::test(refusal, name, Part::Length, length, shortest)?;
    table::test(refusal, name, Part::Length, length, longest)
}

// Each component of a velocity at most 2^7 in size: row 4, and part of row 9.
pub fn velocity_components<R: Numbered>(
    t: Result<(), Entry<R>>,
    refusal: R,
    name: Name,
    v: Vector,
) -> Result<(), Entry<R>>
    ensures { result ≡ t ▷ velocity_components refusal name v }
{
    let limit = Limit::SizeAtMost(128.0);
    t?;
    table::test(refusal, name, Part::X, v.x, limit)?;
    table::test(refusal, name, Part::Y, v.y, limit)?;
    table::test(refusal, name, Part::Z, v.z, limit)
}

// Rows 2 to 4, of mu and a state whose position has this length.
pub fn state_rows<R: Numbered>(
    t: Result<(), Entry<R>>,
    mu: f64,
    s: State,
    length: f64,
) -> Result<(), Entry<R>>
    ensures { result ≡ t ▷ entries_by R.given_as (state_rows mu s length) }
{
    let a = position_row(mu_row(t, mu), Name::Position, s.position(), length);
    let refusal = R::of(Refusal::VelocityOutOfRange);
    velocity_components(a, refusal, Name::Velocity, s.velocity())
}

// Row 5.
pub fn time_row<R: Numbered>(t: Result<(), Entry<R>>, time: f64) -> Result<(), Entry<R>>
    ensures { result ≡ t ▷ entries_by R.given_as (time_row time) }
{
    let refusal = R::of(Refusal::TimeOutOfRange);
    let limit = Limit::SizeAtMost(268435456.0);
    t?;
    table::test(refusal, Name::Time, Part::Whole, time, limit)
}

// Row 5 of Lambert.
pub fn transfer_time_row<R: Numbered>(t: Result<(), Entry<R>>, time: f64) -> Result<(), Entry<R>>
    ensures { result ≡ t ▷ entries_by R.given_as (transfer_time_row time) }
{
    let refusal = R::of(Refusal::TimeOutOfRange);
    let limit = Limit::Over(0.0);
    time_row(t, time)?;
    table::test(refusal, Name::Time, Part::Whole, time, limit)
}

// Row 22, of a body's surface radius.
pub fn radius_row<R: Numbered>(t: Result<(), Entry<R>>, radius: f64) -> Result<(), Entry<R>>
    ensures { result ≡ t ▷ entries_by R.given_as (radius_row radius) }
{
    let least = Limit::Over(0.0);
    let most = Limit::Under(536870912.0);
    let refusal = R::of(Refusal::SettingOutOfRange);
    t?;
    table::test(refusal, Name::Radius, Part::Whole, radius, least)?;
    table::test(refusal, Name::Radius, Part::Whole, radius, most)
}
