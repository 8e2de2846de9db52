// The refusal table as a list of tests. A test is an entry: its row's refusal, the number it looks at, its amount, and what
// it must be. A routine makes its tests one after another, in the order written, and stops at the first that fails, whose
// entry is the error. A routine that only refuses keeps the row's refusal; whoever asks why is shown the entry.
#![tactic(auto)]

ghost use Rattle.std.specs.Prelude.{◌≡◌, [], ◌∷◌};
ghost use Rattle.table.specs.Tests.{entry, satisfies, ◌▷◌};

use refusal::Refusal;

// The inputs, then the derived numbers, then the numbers of a trial.
#[derive(Clone, Copy)]
pub enum Name {
    Mu,
    Position,
    Velocity,
    First,
    Second,
    Normal,
    Time,
    Sin,
    Cos,
    Lo,
    Hi,
    Active,
    Passive,
    Elevation,
    Horizontal,
    Vertical,
    Radius,
    Closed,
    Fair,
    Cross,
    Versine,
    Excess,
    C1,
    C2,
    Ratio,
    Cothalf,
    Cot,
    P,
    E,
    Den,
    W,
    Radicand,
    X,
    Xi,
    TrialTime,
}

// A component of a vector, its length, or the whole of what is no vector.
#[derive(Clone, Copy)]
pub enum Part {
    X,
    Y,
    Z,
    Length,
    Whole,
}

// What an amount must be.
#[derive(Clone, Copy)]
pub enum Limit {
    Finite,
    AtLeast(f64),
    AtMost(f64),
    Under(f64),
    Over(f64),
    SizeAtMost(f64),
    SizeUnder(f64),
    OneWithin(f64),
}

// One test that can fail: what it refuses with, what it looks at, and what that must be.
#[derive(Clone, Copy)]
pub struct Entry<R = Refusal> {
    pub refusal: R,
    pub name: Name,
    pub part: Part,
    pub amount: f64,
    pub limit: Limit,
}

impl Limit {
    // The amount is what it must be. A NaN never is.
    pub fn is_met_by(self, amount: f64) -> bool
        ensures { result ≡ satisfies self amount }
    {
        match self {
            Limit::Finite => real::is_finite(amount),
            Limit::AtLeast(b) => b <= amount,
            Limit::AtMost(b) => amount <= b,
            Limit::Under(b) => amount < b,
            Limit::Over(b) => b < amount,
            Limit::SizeAtMost(b) => real::size(amount) <= b,
            Limit::SizeUnder(b) => real::size(amount) < b,
            Limit::OneWithin(b) => real::size(amount - 1.0) <= b,
        }
    }
}

// One test: the entry itself where the amount is not what it must be.
#[tactic(auto, unfolding(crate::specs::Tests::told))]
pub fn test<R: Copy>(
    refusal: R,
    name: Name,
    part: Part,
    amount: f64,
    limit: Limit,
) -> Result<(), Entry<R>>
    ensures { result ≡ Ok tt ▷ (entry refusal name part amount limit ∷ []) }
{
    if limit.is_met_by(amount) {
        return Ok(());
    }
    Err(Entry {
        refusal,
        name,
        part,
        amount,
        limit,
    })
}
