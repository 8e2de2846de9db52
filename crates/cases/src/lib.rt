// What is a case, or holds one, in memory that a caller of another language lends: judgements, ways round, grades, and a
// stopped run.
#![tactic(auto)]

mod runs;

ghost use Rattle.std.specs.Prelude.{◌≡◌};
ghost use Rattle.field.specs.Bytes.{bits_of};
ghost use Rattle.cases.specs.Cases.{judgement_from, way_from, normal_size, grade_number};

use field::bits_of;
use iterator::Judgement;
use lambert::Way;
use lent::vector_in;
pub use runs::{beginning_from, put_times, put_words, run_misjudged, run_short};
use solve::{Grade, Solution};

pub fn judgement_from(k: u64, t: f64) -> Judgement
    ensures { result ≡ judgement_from k t }
{
    if k == 0 {
        return Judgement::Low(t);
    }
    if k == 1 {
        return Judgement::High(t);
    }
    if k == 2 {
        return Judgement::Under;
    }
    Judgement::Over
}

pub fn normal_size(k: u64) -> usize
    ensures { result ≡ normal_size k }
{
    if k == 2 {
        return 3;
    }
    0
}

pub fn way_from(k: u64, normal: &[f64]) -> Way
    ensures { result ≡ way_from k normal.now }
{
    if k == 0 {
        return Way::Short;
    }
    if k == 1 {
        return Way::Long;
    }
    Way::Normal(vector_in(normal))
}

pub fn grade_number(g: Grade) -> u64
    ensures { result ≡ grade_number g }
{
    match g {
        Grade::Closed => 0,
        Grade::Fair => 1,
        Grade::Rough => 2,
    }
}

// The grid point of a solution, as its 64 bits.
pub fn n_of(x: Solution) -> u64
    ensures { result ≡ bits_of x.n }
{
    bits_of(x.n)
}
