// The conic routines.
ghost use Rattle.lent.specs.Given.{Given, GivenNumbers};
ghost use Rattle.library.specs.Answers.{transfer_time_told, transfer_time_in, apsides_told, apsides_in};
ghost use Rattle.std.specs.Prelude.{◌≤◌, length};

use apsides::Apsides;
use lent::{put_numbers, put_wholes, state_in};
use theta::TransferTime;

fn give_time(a: TransferTime, out: &mut [f64]) -> u32
    requires { 1 ≤ length out.old }
    ensures { GivenNumbers (transfer_time_told a) out.old out.new result }
{
    match a {
        TransferTime::Time(t) => {
            let xs = [t.time];
            put_numbers(out, &xs);
            0
        }
        TransferTime::TooLong => 7,
        TransferTime::TooShort => 8,
        TransferTime::Refused(n) => n.number(),
    }
}

pub fn cabin_transfer_time(mu: f64, state: &[f64], sin: f64, cos: f64, out: &mut [f64]) -> u32
    ensures { GivenNumbers (transfer_time_in mu state.now sin cos out.old) out.old out.new result }
{
    if state.len() < 6 {
        return 15;
    }
    if out.len() < 1 {
        return 15;
    }
    give_time(theta::time_theta(mu, state_in(state), sin, cos), out)
}

fn give_apsides(a: Apsides, out: &mut [f64], whole: &mut [u64]) -> u32
    requires { (2 ≤ length out.old) × (1 ≤ length whole.old) }
    ensures { Given (apsides_told a) out.old whole.old out.new whole.new result }
{
    match a {
        Apsides::Closed(near, far) => {
            let xs = [near, far];
            let zs = [0];
            put_numbers(out, &xs);
            put_wholes(whole, &zs);
            0
        }
        Apsides::Open(near) => {
            let xs = [near];
            let zs = [1];
            put_numbers(out, &xs);
            put_wholes(whole, &zs);
            0
        }
        Apsides::Refused(n) => n.number(),
    }
}

pub fn cabin_apsides(mu: f64, state: &[f64], out: &mut [f64], whole: &mut [u64]) -> u32
    ensures { Given (apsides_in mu state.now out.old whole.old) out.old whole.old out.new whole.new result }
{
    if state.len() < 6 {
        return 15;
    }
    if out.len() < 2 {
        return 15;
    }
    if whole.len() < 1 {
        return 15;
    }
    give_apsides(apsides::periapo(mu, state_in(state)), out, whole)
}
