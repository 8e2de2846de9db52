// The front door for C, as in `library`: the transfer velocity under a limit on the count of trials, gone on with, and graded
// by a version of the settings.
#![tactic(auto)]

ghost use Rattle.std.specs.Prelude.{◌≤◌, ◌≡◌, length};
ghost use Rattle.lent.specs.Given.{Given};
ghost use Rattle.library_transfers.specs.Transfers.{ends_short, transferred_within_told, transfer_within_in, transfer_by_in};

use cases::{
    beginning_from, grade_number, n_of, normal_size, put_times, put_words, run_misjudged,
    run_short, way_from,
};
use lent::{put_numbers, put_wholes, vector_in};
use solve::Transferred;

fn give_transfer(a: Transferred, out: &mut [f64], whole: &mut [u64]) -> u32
    requires { (5 ≤ length out.old) × (6 ≤ length whole.old) }
    ensures { Given (transferred_within_told a) out.old whole.old out.new whole.new result }
{
    match a {
        Transferred::Found(v, x) => {
            let n = n_of(x);
            let grade = x.grade;
            let g = grade_number(grade);
            let xs = [v.x, v.y, v.z, x.t, x.err];
            let zs = [0, n, x.count, g];
            put_numbers(out, &xs);
            put_wholes(whole, &zs);
            0
        }
        Transferred::TooLong => 7,
        Transferred::TooShort => 8,
        Transferred::NotFinished(b) => {
            put_times(out, b);
            put_words(whole, b);
            0
        }
        Transferred::Refused(n) => n.number(),
    }
}

// One of the positions is too short, or the normal where it is asked for.
fn ends_short(first: &[f64], second: &[f64], way: u64, normal: &[f64]) -> bool
    ensures { result ≡ ends_short first.now second.now way normal.now }
{
    if first.len() < 3 {
        return true;
    }
    if second.len() < 3 {
        return true;
    }
    normal.len() < normal_size(way)
}

pub fn cabin_transfer_velocity_within(
    mu: f64,
    first: &[f64],
    second: &[f64],
    way: u64,
    normal: &[f64],
    t: f64,
    times: &[f64],
    from: &[u64],
    limit: u64,
    out: &mut [f64],
    whole: &mut [u64],
) -> u32
    ensures { Given (transfer_within_in mu first.now second.now way normal.now t times.now from.now limit out.old whole.old) out.old whole.old out.new whole.new result }
{
    if ends_short(first, second, way, normal) {
        return 15;
    }
    if run_short(from, times) {
        return 15;
    }
    if out.len() < 5 {
        return 15;
    }
    if whole.len() < 6 {
        return 15;
    }
    if way > 2 {
        return 14;
    }
    if run_misjudged(from) {
        return 14;
    }
    let a = vector_in(first);
    let b = vector_in(second);
    let w = way_from(way, normal);
    let g = beginning_from(from, times);
    give_transfer(
        solve::transfer_velocity_limited(mu, a, b, w, t, limit, g),
        out,
        whole,
    )
}

pub fn cabin_transfer_velocity_by(
    used: &[u8],
    k: u64,
    mu: f64,
    first: &[f64],
    second: &[f64],
    way: u64,
    normal: &[f64],
    t: f64,
    times: &[f64],
    from: &[u64],
    limit: u64,
    out: &mut [f64],
    whole: &mut [u64],
) -> u32
    ensures { Given (transfer_by_in used.now k mu first.now second.now way normal.now t times.now from.now limit out.old whole.old) out.old whole.old out.new whole.new result }
{
    if ends_short(first, second, way, normal) {
        return 15;
    }
    if run_short(from, times) {
        return 15;
    }
    if out.len() < 5 {
        return 15;
    }
    if whole.len() < 6 {
        return 15;
    }
    if way > 2 {
        return 14;
    }
    if run_misjudged(from) {
        return 14;
    }
    let a = vector_in(first);
    let b = vector_in(second);
    let w = way_from(way, normal);
    let g = beginning_from(from, times);
    give_transfer(
        graded::transfer_velocity(used, k, mu, a, b, w, t, limit, g),
        out,
        whole,
    )
}
