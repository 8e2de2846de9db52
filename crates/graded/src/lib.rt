// The iterated solves by the settings: their grades go by the two fractions of the version that is named. The settings are
// looked at first; all else of the answer is the solve's own.
#![tactic(auto)]

ghost use Rattle.std.specs.Prelude.{◌≡◌};
ghost use Rattle.graded.specs.Graded.{fractions_of, graded, graded_advanced, graded_transferred, graded_advance, graded_transfer};

use iterator::Beginning;
use lambert::Way;
use settings::Setting;
use solve::{Advanced, Fractions, Solution, Transferred};
use vector::{State, Vector};

fn fractions_of(x: Setting) -> Fractions
    ensures { result ≡ fractions_of x }
{
    Fractions {
        closed: x.closed,
        fair: x.fair,
    }
}

// The same neighbours, time, err and count, with another grade.
fn solution(f: Fractions, size: f64, x: Solution) -> Solution
    ensures { result ≡ graded f size x }
{
    let grade = solve::grade_of(f, size, x.err);
    Solution { grade, ..x }
}

fn advanced(f: Fractions, size: f64, answer: Advanced) -> Advanced
    ensures { result ≡ graded_advanced f size answer }
{
    match answer {
        Advanced::Found(s, x, turns) => Advanced::Found(s, solution(f, size, x), turns),
        Advanced::TooLong => answer,
        Advanced::NotFinished(_) => answer,
        Advanced::Refused(_) => answer,
    }
}

fn transferred(f: Fractions, size: f64, answer: Transferred) -> Transferred
    ensures { result ≡ graded_transferred f size answer }
{
    match answer {
        Transferred::Found(v, x) => Transferred::Found(v, solution(f, size, x)),
        Transferred::TooLong => answer,
        Transferred::TooShort => answer,
        Transferred::NotFinished(_) => answer,
        Transferred::Refused(_) => answer,
    }
}

// `solve::advance_limited`, graded by version k of the settings' used part.
pub fn advance(used: &[u8], k: u64, mu: f64, s: State, t: f64, limit: u64, g: Beginning) -> Advanced
    ensures { result ≡ graded_advance used.now k mu s t limit g }
{
    match settings::look_up(used, k) {
        Ok(x) => advanced(
            fractions_of(x),
            real::size(t),
            solve::advance_limited(mu, s, t, limit, g),
        ),
        Err(refusal) => Advanced::Refused(refusal),
    }
}

// `solve::transfer_velocity_limited` likewise.
pub fn transfer_velocity(
    used: &[u8],
    k: u64,
    mu: f64,
    first: Vector,
    second: Vector,
    way: Way,
    t: f64,
    limit: u64,
    g: Beginning,
) -> Transferred
    ensures { result ≡ graded_transfer used.now k mu first second way t limit g }
{
    match settings::look_up(used, k) {
        Ok(x) => transferred(
            fractions_of(x),
            t,
            solve::transfer_velocity_limited(mu, first, second, way, t, limit, g),
        ),
        Err(refusal) => Transferred::Refused(refusal),
    }
}
