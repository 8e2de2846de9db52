// The front door for C, as in `library`: the single trial, and the two solves.
#![tactic(auto)]

ghost use Rattle.std.specs.Prelude.{◌≤◌, length};
ghost use Rattle.lent.specs.Given.{Given, GivenWholes};
ghost use Rattle.library_solves.specs.Solves.{tried_told, trial_in, advanced_told, advance_in, transferred_told, transfer_in};

use cases::{grade_number, judgement_from, n_of, normal_size, way_from};
use field::bits_of;
use iterator::Tried;
use lent::{put_numbers, put_wholes, state_in, vector_in};
use solve::{Advanced, Transferred};

fn give_trial(a: Tried, whole: &mut [u64]) -> u32
    requires { 2 ≤ length whole.old }
    ensures { GivenWholes (tried_told a) whole.old whole.new result }
{
    match a {
        Tried::Point(n) => {
            let zs = [1, bits_of(n)];
            put_wholes(whole, &zs);
            0
        }
        Tried::NoneLeft => {
            let zs = [0];
            put_wholes(whole, &zs);
            0
        }
        Tried::Refused(n) => n.number(),
    }
}

pub fn cabin_trial(
    asked: f64,
    lo: i64,
    hi: i64,
    jlo: u64,
    tlo: f64,
    jhi: u64,
    thi: f64,
    k: u64,
    whole: &mut [u64],
) -> u32
    ensures { GivenWholes (trial_in asked lo hi jlo tlo jhi thi k whole.old) whole.old whole.new result }
{
    if whole.len() < 2 {
        return 15;
    }
    if jlo > 3 {
        return 14;
    }
    if jhi > 3 {
        return 14;
    }
    let j = judgement_from(jlo, tlo);
    let i = judgement_from(jhi, thi);
    give_trial(iterator::trial(asked, lo, hi, j, i, k), whole)
}

fn give_advance(a: Advanced, out: &mut [f64], whole: &mut [u64]) -> u32
    requires { (8 ≤ length out.old) × (4 ≤ length whole.old) }
    ensures { Given (advanced_told a) out.old whole.old out.new whole.new result }
{
    match a {
        Advanced::Found(s, x, w) => {
            let n = n_of(x);
            let grade = x.grade;
            let g = grade_number(grade);
            let xs = [s.rx, s.ry, s.rz, s.vx, s.vy, s.vz, x.t, x.err];
            let zs = [n, x.count, w, g];
            put_numbers(out, &xs);
            put_wholes(whole, &zs);
            0
        }
        Advanced::TooLong => 7,
        Advanced::NotFinished(_) => 29,
        Advanced::Refused(n) => n.number(),
    }
}

pub fn cabin_advance(mu: f64, state: &[f64], t: f64, out: &mut [f64], whole: &mut [u64]) -> u32
    ensures { Given (advance_in mu state.now t out.old whole.old) out.old whole.old out.new whole.new result }
{
    if state.len() < 6 {
        return 15;
    }
    if out.len() < 8 {
        return 15;
    }
    if whole.len() < 4 {
        return 15;
    }
    give_advance(solve::advance(mu, state_in(state), t), out, whole)
}

fn give_transfer(a: Transferred, out: &mut [f64], whole: &mut [u64]) -> u32
    requires { (5 ≤ length out.old) × (3 ≤ length whole.old) }
    ensures { Given (transferred_told a) out.old whole.old out.new whole.new result }
{
    match a {
        Transferred::Found(v, x) => {
            let n = n_of(x);
            let grade = x.grade;
            let g = grade_number(grade);
            let xs = [v.x, v.y, v.z, x.t, x.err];
            let zs = [n, x.count, g];
            put_numbers(out, &xs);
            put_wholes(whole, &zs);
            0
        }
        Transferred::TooLong => 7,
        Transferred::TooShort => 8,
        Transferred::NotFinished(_) => 29,
        Transferred::Refused(n) => n.number(),
    }
}

pub fn cabin_transfer_velocity(
    mu: f64,
    first: &[f64],
    second: &[f64],
    way: u64,
    normal: &[f64],
    t: f64,
    out: &mut [f64],
    whole: &mut [u64],
) -> u32
    ensures { Given (transfer_in mu first.now second.now way normal.now t out.old whole.old) out.old whole.old out.new whole.new result }
{
    if first.len() < 3 {
        return 15;
    }
    if second.len() < 3 {
        return 15;
    }
    if normal.len() < normal_size(way) {
        return 15;
    }
    if out.len() < 5 {
        return 15;
    }
    if whole.len() < 3 {
        return 15;
    }
    if way > 2 {
        return 14;
    }
    let a = vector_in(first);
    let b = vector_in(second);
    let w = way_from(way, normal);
    give_transfer(solve::transfer_velocity(mu, a, b, w, t), out, whole)
}
