// The trials that are made for a problem: where they begin, and where they end, at neighbours or at a limit. One loop serves
// both problems.
#![tactic(auto)]

ghost use Rattle.std.specs.Prelude.{◌≡◌, true, ◌+◌, ◌<◌, ◌^◌};
ghost use Rattle.table.specs.Tests.{◌▷◌, entries_by};
ghost use Rattle.iterator.specs.Rule.{Grid, width_of};
ghost use Rattle.iterator.specs.Single.{in_grid, is_below, is_above};
ghost use Rattle.iterator.specs.Run.{next_point, narrowed, run_to};
ghost use Rattle.problem.specs.Problems.{judge_of};
ghost use Rattle.trials.specs.Carried.{time_input, times_input};
ghost use Rattle.trials.specs.Span.{below_of, above_of, bracket_of, span_of};
ghost use Rattle.trials.specs.Ended.{begun_of, ended_from};

use iterator::{Beginning, Bracket, Judgement};
use problem::Problem;
use reason::Amiss;
use refusal::{Numbered, Refusal};
use table::{Entry, Name};

// Where the trials ended: at neighbours, or at the limit. Or what ended the solve ahead of them: a test that fails, or
// what is amiss with the bracket to go on from.
#[derive(Clone, Copy)]
pub enum Ended<R = Refusal> {
    Refused(Entry<R>),
    Wrong(Amiss),
    At(Bracket),
}

// A bracket as the loop holds it, its judgements as plain numbers: low or under at lo, and high or over at hi.
#[derive(Clone, Copy)]
struct Span {
    lo: i64,
    hi: i64,
    low: bool,
    below: f64,
    high: bool,
    above: f64,
    count: u64,
}

fn below_of(s: Span) -> Judgement
    ensures { result ≡ below_of s }
{
    if s.low {
        return Judgement::Low(s.below);
    }
    Judgement::Under
}

fn above_of(s: Span) -> Judgement
    ensures { result ≡ above_of s }
{
    if s.high {
        return Judgement::High(s.above);
    }
    Judgement::Over
}

fn bracket_of(s: Span) -> Bracket
    ensures { result ≡ bracket_of s }
{
    Bracket {
        lo: s.lo,
        hi: s.hi,
        below: below_of(s),
        above: above_of(s),
        count: s.count,
    }
}

// A high or an over at lo, or a low or an under at hi, does not come up.
fn span_of(s: Bracket) -> Span
    ensures { result ≡ span_of s }
{
    let below = s.below;
    let above = s.above;
    Span {
        lo: s.lo,
        hi: s.hi,
        low: iterator::has_time(below),
        below: iterator::carried(below),
        high: iterator::has_time(above),
        above: iterator::carried(above),
        count: s.count,
    }
}

// Low and under replace lo; high and over replace hi.
fn narrow(s: Span, n: i64, j: Judgement) -> Span
    requires { s.count + 1 < 2 ^ 64 }
    ensures { bracket_of result ≡ narrowed (bracket_of s) n j }
{
    let timed = iterator::has_time(j);
    let time = iterator::carried(j);
    let count = s.count + 1;
    if iterator::is_below(j) {
        return Span {
            lo: n,
            hi: s.hi,
            low: timed,
            below: time,
            high: s.high,
            above: s.above,
            count,
        };
    }
    Span {
        lo: s.lo,
        hi: n,
        low: s.low,
        below: s.below,
        high: timed,
        above: time,
        count,
    }
}

// hi - lo.
fn width(s: Span) -> u64
    requires { Grid s.lo s.hi }
    ensures { result ≡ width_of s.lo s.hi }
{
    (s.hi - s.lo) as u64
}

// The next trial's point, in a bracket w wide.
fn point(asked: f64, s: Span, w: u64) -> i64
    requires on_grid { Grid s.lo s.hi }
    requires its_width { w ≡ width_of s.lo s.hi }
    requires not_neighbours { 1 < w }
    requires count_fits { s.count + 1 < 2 ^ 64 }
    ensures { result ≡ next_point asked (bracket_of s) }
{
    let d = iterator::stride(asked, w, below_of(s), above_of(s), s.count + 1);
    s.lo + (d as i64)
}

// While hi - lo > 1 and the count is under the limit a trial is made: its point, by the iterator's rule, is judged and
// narrows the bracket, whatever the judge says.
fn iterate(problem: Problem, asked: f64, limit: u64, start: Bracket) -> Bracket
    requires on_grid { in_grid start.lo start.hi ≡ true }
    requires lower_end { is_below start.below ≡ true }
    requires upper_end { is_above start.above ≡ true }
    requires count_fits { start.count + width_of start.lo start.hi < 2 ^ 64 }
    ensures { result ≡ run_to (judge_of problem asked) asked limit start }
{
    let mut s = span_of(start);
    loop {
        if limit <= s.count {
            break bracket_of(s);
        }
        let w = width(s);
        if w <= 1 {
            break bracket_of(s);
        }
        let n = point(asked, s, w);
        s = narrow(s, n, problem::judge(problem, asked, n));
    }
}

// Row 1 of the time that a judgement carries.
#[tactic(auto, using(table::proofs::Laws::told_fails, table::proofs::Laws::told_passes))]
fn time_input<R: Numbered>(
    t: Result<(), Entry<R>>,
    name: Name,
    j: Judgement,
) -> Result<(), Entry<R>>
    ensures { result ≡ t ▷ entries_by R.given_as (time_input name j) }
{
    match j {
        Judgement::Low(x) => rows::finite_number(t, name, x),
        Judgement::High(x) => rows::finite_number(t, name, x),
        Judgement::Under => t,
        Judgement::Over => t,
    }
}

// Of both that a stopped bracket carries.
#[tactic(auto, using(table::proofs::Laws::told_fails, table::proofs::Laws::told_passes))]
pub fn times_input<R: Numbered>(t: Result<(), Entry<R>>, g: Beginning) -> Result<(), Entry<R>>
    ensures { result ≡ t ▷ entries_by R.given_as (times_input g) }
{
    let Beginning::Stopped(b) = g else {
        return t;
    };
    let below = b.below;
    let above = b.above;
    time_input(time_input(t, Name::Lo, below), Name::Hi, above)
}

#[tactic(auto, unfolding(crate::specs::Ended::begun_of, crate::specs::Ended::begun_by))]
fn begin(problem: Problem, asked: f64, g: Beginning) -> Result<Bracket, Amiss>
    ensures { result ≡ begun_of problem asked g }
{
    match g {
        Beginning::Start => Ok(problem::start(problem)),
        Beginning::Stopped(b) => {
            problem::check_ends(problem, asked, b)?;
            Ok(b)
        }
    }
}

// The tests ahead of the trials, row 6 of a bracket to go on from, the tests behind it, and then the trials.
#[tactic(auto, unfolding(crate::specs::Ended::ended_from))]
pub fn ended_from<R: Numbered>(
    ahead: Result<(), Entry<R>>,
    problem: Problem,
    asked: f64,
    limit: u64,
    g: Beginning,
    behind: Result<(), Entry<R>>,
) -> Ended<R>
    ensures { result ≡ ended_from ahead (begun_of problem asked g) behind problem asked limit }
{
    if let Err(e) = ahead {
        return Ended::Refused(e);
    }
    match begin(problem, asked, g) {
        Err(a) => Ended::Wrong(a),
        Ok(b) => match behind {
            Err(e) => Ended::Refused(e),
            Ok(()) => Ended::At(iterate(problem, asked, limit, b)),
        },
    }
}
