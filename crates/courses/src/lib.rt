// The line of the constant-height burn, read behind its name.
#![tactic(auto)]

ghost use Rattle.std.specs.Prelude.{◌≡◌};
ghost use Rattle.forms.specs.Forms.{read_by};
ghost use Rattle.courses.specs.Courses.{cdh_form};

use forms::Request;
use vector::State;

// The body, its surface radius and mu, the active state and its time, the passive one and its own, the burn's time and
// the next manoeuvre's, and no word more.
pub fn cdh(line: &[u8]) -> Result<Request, u64>
    ensures { result ≡ read_by cdh_form 1 line.now }
{
    let body = numerals::whole_at(line, 1).ok_or(2u64)?;
    let [radius, mu, rx, ry, rz, vx, vy, vz] = forms::numbers_as_array::<8>(line, 2)?;
    let active = State {
        rx,
        ry,
        rz,
        vx,
        vy,
        vz,
    };
    let ta = numerals::signed_at(line, 10).ok_or(11u64)?;
    let [rx, ry, rz, vx, vy, vz] = forms::numbers_as_array::<6>(line, 11)?;
    let passive = State {
        rx,
        ry,
        rz,
        vx,
        vy,
        vz,
    };
    let tp = numerals::signed_at(line, 17).ok_or(18u64)?;
    let (t2, t3) = forms::ends_at(line, 18)?;
    forms::only(
        line,
        20,
        Request::Burn {
            body,
            radius,
            mu,
            active,
            ta,
            passive,
            tp,
            t2,
            t3,
        },
    )
}
