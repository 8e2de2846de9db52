// What a setting may be.
ghost use Rattle.std.specs.Prelude.{◌≡◌, [], ◌∷◌};
ghost use Rattle.table.specs.Tests.{entry, ◌▷◌, first_failing};
ghost use Rattle.settings.specs.Allowed.{finite_row, fraction_row, fractions_row, setting_tests, refusal_of};

use refusal::Refusal;
use table::{Entry, Limit, Name, Part};

// A body (0 earth, 1 moon), its constants, and the two fractions of the grades.
#[derive(Clone, Copy)]
pub struct Setting {
    pub body: u64,
    pub mu: f64,
    pub radius: f64,
    pub closed: f64,
    pub fair: f64,
}

// Row 1: here the tests begin.
#[tactic(auto, using(table::proofs::Laws::told_fails, table::proofs::Laws::told_passes))]
fn finite_row(x: Setting) -> Result<(), Entry>
    ensures { result ≡ Ok tt ▷ finite_row x }
{
    let mu = rows::finite_number(Ok(()), Name::Mu, x.mu);
    let radius = rows::finite_number(mu, Name::Radius, x.radius);
    let closed = rows::finite_number(radius, Name::Closed, x.closed);
    rows::finite_number(closed, Name::Fair, x.fair)
}

fn test(name: Name, amount: f64, limit: Limit) -> Result<(), Entry>
    ensures { result ≡ Ok tt ▷ (entry Refusal.SettingOutOfRange name Part.Whole amount limit ∷ []) }
{
    table::test(Refusal::SettingOutOfRange, name, Part::Whole, amount, limit)
}

// Row 22, of one fraction.
#[tactic(auto, using(table::proofs::Laws::told_fails, table::proofs::Laws::told_passes))]
fn fraction_row(name: Name, x: f64) -> Result<(), Entry>
    ensures { result ≡ Ok tt ▷ fraction_row name x }
{
    test(name, x, Limit::AtLeast(0.0))?;
    test(name, x, Limit::AtMost(1.0))
}

// Row 22, of both.
#[tactic(auto, using(table::proofs::Laws::told_fails, table::proofs::Laws::told_passes))]
fn fractions_row(closed: f64, fair: f64) -> Result<(), Entry>
    ensures { result ≡ Ok tt ▷ fractions_row closed fair }
{
    fraction_row(Name::Closed, closed)?;
    fraction_row(Name::Fair, fair)?;
    test(Name::Closed, closed, Limit::AtMost(fair))
}

// Rows 1, 2 and 22.
pub fn tests(x: Setting) -> Result<(), Entry>
    ensures { result ≡ first_failing (setting_tests x) }
{
    rows::mu_row(finite_row(x), x.mu)?;
    let fractions = fractions_row(x.closed, x.fair);
    rows::radius_row(fractions, x.radius)
}

// Why a setting is refused, and None for one that is allowed.
pub fn refusal_of(x: Setting) -> Option<Refusal>
    ensures { result ≡ refusal_of x }
{
    match tests(x) {
        Err(e) => Some(e.refusal),
        Ok(()) => {
            if x.body > 1 {
                return Some(Refusal::NotAllowed);
            }
            None
        }
    }
}
