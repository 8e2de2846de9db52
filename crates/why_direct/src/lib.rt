// Why a solve that makes no trials refuses, or that it does not: its own tests, told. No test and no formula stands here.
#![tactic(auto)]

ghost use Rattle.std.specs.Prelude.{◌≡◌};
ghost use Rattle.why_direct.specs.Why.{why_time, why_apsides};

use reach::Reached;
use reason::Reason;
use vector::State;

// Of a transfer time.
#[tactic(auto, unfolding(crate::specs::Why::time_reason, crate::specs::Why::reached_reason))]
pub fn time_theta(mu: f64, s: State, sin: f64, cos: f64) -> Reason
    ensures { result ≡ why_time mu s sin cos }
{
    let d = theta::sweep_of(mu, s, sin, cos);
    match theta::tests(mu, s, sin, cos, d) {
        Err(e) => Reason::Test(e),
        Ok(()) => match reach::reach_of(theta::arc_of(mu, d)) {
            Reached::Time(_) => Reason::Solved,
            Reached::Under(e) => Reason::Range(e),
            Reached::Over(e) => Reason::Range(e),
        },
    }
}

// Of the apsides.
#[tactic(auto, unfolding(crate::specs::Why::test_reason))]
pub fn periapo(mu: f64, s: State) -> Reason
    ensures { result ≡ why_apsides mu s }
{
    match apsides::tests(mu, s, apsides::shape_of(mu, s)) {
        Err(e) => Reason::Test(e),
        Ok(()) => Reason::Solved,
    }
}
