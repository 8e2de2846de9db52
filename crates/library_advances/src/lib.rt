// The front door for C, as in `library`: the advance under a limit on the count of trials, gone on with, and graded by a
// version of the settings.
#![tactic(auto)]

ghost use Rattle.std.specs.Prelude.{◌≤◌, length};
ghost use Rattle.lent.specs.Given.{Given};
ghost use Rattle.library_advances.specs.Advances.{advanced_within_told, advance_within_in, advance_by_in};

use cases::{beginning_from, grade_number, n_of, put_times, put_words, run_misjudged, run_short};
use lent::{put_numbers, put_wholes, state_in};
use solve::Advanced;

fn give_advance(a: Advanced, out: &mut [f64], whole: &mut [u64]) -> u32
    requires { (8 ≤ length out.old) × (6 ≤ length whole.old) }
    ensures { Given (advanced_within_told a) out.old whole.old out.new whole.new result }
{
    match a {
        Advanced::Found(s, x, w) => {
            let n = n_of(x);
            let grade = x.grade;
            let g = grade_number(grade);
            let xs = [s.rx, s.ry, s.rz, s.vx, s.vy, s.vz, x.t, x.err];
            let zs = [0, n, x.count, w, g];
            put_numbers(out, &xs);
            put_wholes(whole, &zs);
            0
        }
        Advanced::TooLong => 7,
        Advanced::NotFinished(b) => {
            put_times(out, b);
            put_words(whole, b);
            0
        }
        Advanced::Refused(n) => n.number(),
    }
}

pub fn cabin_advance_within(
    mu: f64,
    state: &[f64],
    t: f64,
    times: &[f64],
    from: &[u64],
    limit: u64,
    out: &mut [f64],
    whole: &mut [u64],
) -> u32
    ensures { Given (advance_within_in mu state.now t times.now from.now limit out.old whole.old) out.old whole.old out.new whole.new result }
{
    if state.len() < 6 {
        return 15;
    }
    if run_short(from, times) {
        return 15;
    }
    if out.len() < 8 {
        return 15;
    }
    if whole.len() < 6 {
        return 15;
    }
    if run_misjudged(from) {
        return 14;
    }
    let s = state_in(state);
    let g = beginning_from(from, times);
    give_advance(solve::advance_limited(mu, s, t, limit, g), out, whole)
}

pub fn cabin_advance_by(
    used: &[u8],
    k: u64,
    mu: f64,
    state: &[f64],
    t: f64,
    times: &[f64],
    from: &[u64],
    limit: u64,
    out: &mut [f64],
    whole: &mut [u64],
) -> u32
    ensures { Given (advance_by_in used.now k mu state.now t times.now from.now limit out.old whole.old) out.old whole.old out.new whole.new result }
{
    if state.len() < 6 {
        return 15;
    }
    if run_short(from, times) {
        return 15;
    }
    if out.len() < 8 {
        return 15;
    }
    if whole.len() < 6 {
        return 15;
    }
    if run_misjudged(from) {
        return 14;
    }
    let s = state_in(state);
    let g = beginning_from(from, times);
    give_advance(graded::advance(used, k, mu, s, t, limit, g), out, whole)
}
