// The front door for C, as in `library`: the settings as versions in a lent buffer.
#![tactic(auto)]

ghost use Rattle.std.specs.Prelude.{◌≤◌, ◌≡◌, length};
ghost use Rattle.lent.specs.Given.{Given, GivenWholes};
ghost use Rattle.library_settings.specs.Versions.{looked_told, look_in, stored_told, store_in, store_after, back_in, back_after};

use lent::{put_numbers, put_wholes};
use refusal::Refusal;
use settings::Setting;

fn give_looked(a: Result<Setting, Refusal>, out: &mut [f64], whole: &mut [u64]) -> u32
    requires { (4 ≤ length out.old) × (1 ≤ length whole.old) }
    ensures { Given (looked_told a) out.old whole.old out.new whole.new result }
{
    match a {
        Ok(x) => {
            let xs = [x.mu, x.radius, x.closed, x.fair];
            let zs = [x.body];
            put_numbers(out, &xs);
            put_wholes(whole, &zs);
            0
        }
        Err(n) => n.number(),
    }
}

pub fn cabin_look_up(used: &[u8], k: u64, out: &mut [f64], whole: &mut [u64]) -> u32
    ensures { Given (look_in used.now k out.old whole.old) out.old whole.old out.new whole.new result }
{
    if out.len() < 4 {
        return 15;
    }
    if whole.len() < 1 {
        return 15;
    }
    give_looked(settings::look_up(used, k), out, whole)
}

fn give_stored(a: Result<(u64, usize), Refusal>, whole: &mut [u64]) -> u32
    requires { 2 ≤ length whole.old }
    ensures { GivenWholes (stored_told a) whole.old whole.new result }
{
    match a {
        Ok((k, r)) => {
            let zs = [k, r as u64];
            put_wholes(whole, &zs);
            0
        }
        Err(n) => n.number(),
    }
}

pub fn cabin_store(
    buf: &mut [u8],
    used: usize,
    body: u64,
    mu: f64,
    radius: f64,
    closed: f64,
    fair: f64,
    whole: &mut [u64],
) -> u32
    ensures { (GivenWholes (store_in buf.old used (record { body = body; mu = mu; radius = radius; closed = closed; fair = fair }) whole.old) whole.old whole.new result) × (buf.new ≡ store_after buf.old used (record { body = body; mu = mu; radius = radius; closed = closed; fair = fair }) whole.old) }
{
    if whole.len() < 2 {
        return 15;
    }
    let x = Setting {
        body,
        mu,
        radius,
        closed,
        fair,
    };
    give_stored(settings::store(buf, used, x), whole)
}

pub fn cabin_go_back(buf: &mut [u8], used: usize, k: u64, whole: &mut [u64]) -> u32
    ensures { (GivenWholes (back_in buf.old used k whole.old) whole.old whole.new result) × (buf.new ≡ back_after buf.old used k whole.old) }
{
    if whole.len() < 2 {
        return 15;
    }
    give_stored(settings::go_back(buf, used, k), whole)
}
