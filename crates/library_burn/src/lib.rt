// The front door for C, as in `library`: the constant-height burn.
#![tactic(auto)]

ghost use Rattle.std.specs.Prelude.{◌≤◌, length};
ghost use Rattle.lent.specs.Given.{Given};
ghost use Rattle.library_burn.specs.Burns.{change_told, burn_told, burn_in};

use burn::{Burn, Centre};
use lent::{put_numbers, put_wholes, state_in};
use refusal::Refusal;

fn give_change(b: Burn, out: &mut [f64], whole: &mut [u64]) -> u32
    requires { (5 ≤ length out.old) × (1 ≤ length whole.old) }
    ensures { Given (change_told b) out.old whole.old out.new whole.new result }
{
    match b {
        Burn::Closed(v, near, far) => {
            let xs = [v.x, v.y, v.z, near, far];
            let zs = [0];
            put_numbers(out, &xs);
            put_wholes(whole, &zs);
            0
        }
        Burn::Open(v, near) => {
            let xs = [v.x, v.y, v.z, near];
            let zs = [1];
            put_numbers(out, &xs);
            put_wholes(whole, &zs);
            0
        }
    }
}

fn give_burn(a: Result<Burn, Refusal>, out: &mut [f64], whole: &mut [u64]) -> u32
    requires { (5 ≤ length out.old) × (1 ≤ length whole.old) }
    ensures { Given (burn_told a) out.old whole.old out.new whole.new result }
{
    match a {
        Ok(b) => give_change(b, out, whole),
        Err(n) => n.number(),
    }
}

pub fn cabin_constant_height(
    body: u64,
    radius: f64,
    mu: f64,
    active: &[f64],
    ta: i64,
    passive: &[f64],
    tp: i64,
    t2: i64,
    t3: i64,
    out: &mut [f64],
    whole: &mut [u64],
) -> u32
    ensures { Given (burn_in (record { body = body; radius = radius; mu = mu }) active.now ta passive.now tp t2 t3 out.old whole.old) out.old whole.old out.new whole.new result }
{
    if active.len() < 6 {
        return 15;
    }
    if passive.len() < 6 {
        return 15;
    }
    if out.len() < 5 {
        return 15;
    }
    if whole.len() < 1 {
        return 15;
    }
    let k = Centre { body, radius, mu };
    let a = state_in(active);
    let p = state_in(passive);
    give_burn(burn::constant_height(k, a, ta, p, tp, t2, t3), out, whole)
}
