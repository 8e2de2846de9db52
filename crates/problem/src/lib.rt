// The two problems that trials are made for: the judge of a grid point, the grid's own ends, and the bracket to go on from.
#![tactic(auto)]

ghost use Rattle.std.specs.Prelude.{◌≡◌};
ghost use Rattle.problem.specs.Problems.{judge_of, start_of, held_of, most_of};
ghost use Rattle.problem.specs.Held.{on_grid, end_test, tested_by, ◌▸◌, place_tests, state_tests, stand_tests, checked_of};
ghost use Rattle.problem.specs.Stops.{range_at, stop_of};

use iterator::{Bracket, Judgement};
use kepler::Motion;
use lambert::Transfer;
use reason::{Amiss, Stop};
use table::Entry;

#[derive(Clone, Copy)]
pub enum Problem {
    Kepler(Motion),
    Lambert(Transfer),
}

// The judgement of a grid point inside the grid.
pub fn judge(problem: Problem, asked: f64, n: i64) -> Judgement
    ensures { result ≡ judge_of problem asked n }
{
    match problem {
        Problem::Kepler(m) => kepler::judge(m, asked, n),
        Problem::Lambert(d) => lambert::judge(d, asked, n),
    }
}

// The grid's own ends, neither evaluated.
pub fn start(problem: Problem) -> Bracket
    ensures { result ≡ start_of problem }
{
    match problem {
        Problem::Kepler(_) => Bracket {
            lo: 0,
            hi: 137438953472,
            below: Judgement::Low(0.0),
            above: Judgement::Over,
            count: 0,
        },
        Problem::Lambert(_) => Bracket {
            lo: -33554432,
            hi: 33554432,
            below: Judgement::Under,
            above: Judgement::Over,
            count: 0,
        },
    }
}

// The most trials that are made from the start.
pub fn most(problem: Problem) -> u64
    ensures { result ≡ most_of problem }
{
    match problem {
        Problem::Kepler(_) => 74,
        Problem::Lambert(_) => 52,
    }
}

// The judgement at a grid point; the grid's own ends are not evaluated.
pub fn held(problem: Problem, asked: f64, n: i64) -> Judgement
    ensures { result ≡ held_of problem asked n }
{
    let s = start(problem);
    if s.lo < n {
        if n < s.hi {
            return judge(problem, asked, n);
        }
        return s.above;
    }
    s.below
}

// The range test that stops the trial of a grid point inside the grid.
fn range_test(problem: Problem, n: i64) -> Result<(), Entry>
    ensures { result ≡ range_at problem n }
{
    match problem {
        Problem::Kepler(m) => kepler::stop_at(m, n),
        Problem::Lambert(d) => lambert::stop_at(d, n),
    }
}

fn on_grid(problem: Problem, n: i64) -> bool
    ensures { result ≡ on_grid problem n }
{
    let s = start(problem);
    if s.lo <= n { n <= s.hi } else { false }
}

// One test, and what is amiss where it fails.
#[tactic(auto, unfolding(crate::specs::Held::tested_by))]
fn test(met: bool, a: Amiss) -> Result<(), Amiss>
    ensures { result ≡ tested_by (Ok tt) (end_test met a) }
{
    if met { Ok(()) } else { Err(a) }
}

// Its ends on the grid and in order.
#[tactic(auto, using(crate::proofs::Checks::tested_fails, crate::proofs::Checks::tested_passes))]
fn placed(problem: Problem, b: Bracket) -> Result<(), Amiss>
    ensures { result ≡ Ok tt ▸ place_tests problem b.lo b.hi }
{
    let lo = b.lo;
    let hi = b.hi;
    test(on_grid(problem, lo), Amiss::LoOffGrid(lo))?;
    test(on_grid(problem, hi), Amiss::HiOffGrid(hi))?;
    test(lo < hi, Amiss::LoNotUnderHi(lo))
}

// Judged as stated.
#[tactic(auto, using(crate::proofs::Checks::tested_fails, crate::proofs::Checks::tested_passes))]
fn stated(problem: Problem, asked: f64, b: Bracket) -> Result<(), Amiss>
    ensures { result ≡ Ok tt ▸ state_tests problem asked b }
{
    let below = b.below;
    let above = b.above;
    let lower = held(problem, asked, b.lo);
    test(
        iterator::same(lower, below),
        Amiss::LoMisjudged(b.lo, lower),
    )?;
    let upper = held(problem, asked, b.hi);
    test(
        iterator::same(upper, above),
        Amiss::HiMisjudged(b.hi, upper),
    )
}

// Low or under, and high or over.
#[tactic(auto, using(crate::proofs::Checks::tested_fails, crate::proofs::Checks::tested_passes))]
fn stands(b: Bracket) -> Result<(), Amiss>
    ensures { result ≡ Ok tt ▸ stand_tests b }
{
    let below = b.below;
    let above = b.above;
    test(iterator::is_below(below), Amiss::LoNotBelow(b.lo))?;
    test(!iterator::is_below(above), Amiss::HiNotAbove(b.hi))
}

// Whether trials can go on from a bracket: all of these, in this order, and a count of at most 2b.
#[tactic(auto, using(crate::proofs::Checks::tested_fails, crate::proofs::Checks::tested_passes))]
pub fn check_ends(problem: Problem, asked: f64, b: Bracket) -> Result<(), Amiss>
    ensures { result ≡ checked_of problem asked b }
{
    let most = most(problem);
    placed(problem, b)?;
    stated(problem, asked, b)?;
    stands(b)?;
    test(b.count <= most, Amiss::CountOver(b.count, most))
}

// Why a grid point has no time: it is the grid's own end, or a range test of its trial fails. A point that has one
// counts as an end: it is not asked about.
pub fn stop_at(problem: Problem, n: i64) -> Stop
    ensures { result ≡ stop_of problem n }
{
    let s = start(problem);
    if s.lo < n {
        if n < s.hi {
            return match range_test(problem, n) {
                Err(e) => Stop::Test(e),
                Ok(()) => Stop::EndOfGrid,
            };
        }
    }
    Stop::EndOfGrid
}
