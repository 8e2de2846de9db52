// The thumbwheel and the sight line.
ghost use Rattle.std.specs.Prelude.{◌≤◌, length};
ghost use Rattle.lent.specs.Given.{GivenNumbers};
ghost use Rattle.library.specs.Answers.{wheel_told, wheel_in, sight_told, sight_in};

use lent::{put_numbers, vector_in};
use refusal::Refusal;
use sight::Points;
use wheel::Direction;

fn give_wheel(a: Result<Direction, Refusal>, out: &mut [f64]) -> u32
    requires { 2 ≤ length out.old }
    ensures { GivenNumbers (wheel_told a) out.old out.new result }
{
    match a {
        Ok(d) => {
            let xs = [d.sine, d.cosine];
            put_numbers(out, &xs);
            0
        }
        Err(n) => n.number(),
    }
}

pub fn cabin_wheel(e: u64, out: &mut [f64]) -> u32
    ensures { GivenNumbers (wheel_in e out.old) out.old out.new result }
{
    if out.len() < 2 {
        return 15;
    }
    give_wheel(wheel::wheel(e), out)
}

fn give_sight(a: Result<Points, Refusal>, out: &mut [f64]) -> u32
    requires { 8 ≤ length out.old }
    ensures { GivenNumbers (sight_told a) out.old out.new result }
{
    match a {
        Ok(p) => {
            let f = p.first;
            let s = p.second;
            let xs = [p.larger, p.smaller, f.x, f.y, f.z, s.x, s.y, s.z];
            put_numbers(out, &xs);
            0
        }
        Err(n) => n.number(),
    }
}

pub fn cabin_sight(
    active: &[f64],
    passive: &[f64],
    e: u64,
    horizontal: &[f64],
    vertical: &[f64],
    out: &mut [f64],
) -> u32
    ensures { GivenNumbers (sight_in active.now passive.now e horizontal.now vertical.now out.old) out.old out.new result }
{
    if active.len() < 3 {
        return 15;
    }
    if passive.len() < 3 {
        return 15;
    }
    if horizontal.len() < 3 {
        return 15;
    }
    if vertical.len() < 3 {
        return 15;
    }
    if out.len() < 8 {
        return 15;
    }
    let a = vector_in(active);
    let p = vector_in(passive);
    let h = vector_in(horizontal);
    let v = vector_in(vertical);
    give_sight(sight::crossings(a, p, e, h, v), out)
}
