// The line of a single trial, read behind its name.
#![tactic(auto)]

ghost use Rattle.std.specs.Prelude.{◌≡◌};
ghost use Rattle.forms.specs.Forms.{read_by};
ghost use Rattle.single.specs.Single.{trial_form};

use forms::Request;

// The time asked for, the two ends, the judgements there, the number of the trial, and no word more.
pub fn trial(line: &[u8]) -> Result<Request, u64>
    ensures { result ≡ read_by trial_form 1 line.now }
{
    let asked = forms::number_at(line, 1).ok_or(2u64)?;
    let (lo, hi) = forms::ends_at(line, 2)?;
    let (below, above) = forms::sides_at(line, 4)?;
    let k = numerals::whole_at(line, 6).ok_or(7u64)?;
    forms::only(
        line,
        7,
        Request::Trial {
            asked,
            lo,
            hi,
            below,
            above,
            k,
        },
    )
}
