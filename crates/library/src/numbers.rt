// The root and the series.
ghost use Rattle.root.specs.Root.{root_answer};
ghost use Rattle.series.specs.Series.{c_answer, s_answer};
ghost use Rattle.lent.specs.Given.{GivenNumbers};
ghost use Rattle.library.specs.Answers.{one_in};

use lent::put_numbers;
use refusal::Refusal;

// One number, where there is a place for it.
fn give_one(a: Result<f64, Refusal>, out: &mut [f64]) -> u32
    ensures { GivenNumbers (one_in a out.old) out.old out.new result }
{
    if out.len() < 1 {
        return 15;
    }
    match a {
        Ok(x) => {
            let xs = [x];
            put_numbers(out, &xs);
            0
        }
        Err(n) => n.number(),
    }
}

pub fn cabin_root(x: f64, out: &mut [f64]) -> u32
    ensures { GivenNumbers (one_in (root_answer x) out.old) out.old out.new result }
{
    give_one(root::root(x), out)
}

pub fn cabin_c(xi: f64, out: &mut [f64]) -> u32
    ensures { GivenNumbers (one_in (c_answer xi) out.old) out.old out.new result }
{
    give_one(series::c(xi), out)
}

pub fn cabin_s(xi: f64, out: &mut [f64]) -> u32
    ensures { GivenNumbers (one_in (s_answer xi) out.old) out.old out.new result }
{
    give_one(series::s(xi), out)
}
