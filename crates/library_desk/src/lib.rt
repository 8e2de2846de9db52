// The front door for C, as in `library`: the desk, a line in and a line out.
#![tactic(auto)]

ghost use Rattle.std.specs.Prelude.{◌≡◌};
ghost use Rattle.lent.specs.Given.{GivenWholes};
ghost use Rattle.library_desk.specs.Asked.{ask_in, ask_after};

use library_lines::{by_number, give_made};

pub fn cabin_ask(used: &[u8], line: &[u8], answer: &mut [u8], whole: &mut [u64]) -> u32
    ensures { (GivenWholes (ask_in used.now line.now answer.old whole.old) whole.old whole.new result) × (answer.new ≡ ask_after used.now line.now answer.old whole.old) }
{
    if whole.len() < 1 {
        return 15;
    }
    give_made(by_number(reply::reply(used, line, answer)), whole)
}
