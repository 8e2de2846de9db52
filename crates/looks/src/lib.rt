// The lines of the thumbwheel and of the sight line, read behind their names.
#![tactic(auto)]

ghost use Rattle.std.specs.Prelude.{◌≡◌};
ghost use Rattle.forms.specs.Forms.{read_by};
ghost use Rattle.looks.specs.Looks.{wheel_form, sight_form};

use forms::{Look, Request};
use vector::Vector;

#[tactic(auto, unfolding(forms::specs::Forms::read_by))]
pub fn wheel(line: &[u8]) -> Result<Request, u64>
    ensures { result ≡ read_by wheel_form 1 line.now }
{
    let e = numerals::whole_at(line, 1).ok_or(2u64)?;
    forms::only(line, 2, Request::Look(Look::Wheel(e)))
}

// The two positions, the elevation, and the sight line's horizontal and vertical.
pub fn sight(line: &[u8]) -> Result<Request, u64>
    ensures { result ≡ read_by sight_form 1 line.now }
{
    let [ax, ay, az, px, py, pz] = forms::numbers_as_array::<6>(line, 1)?;
    let elevation = numerals::whole_at(line, 7).ok_or(8u64)?;
    let [hx, hy, hz, vx, vy, vz] = forms::only_numbers_as_array::<6>(line, 8)?;
    Ok(Request::Look(Look::Sight {
        active: Vector {
            x: ax,
            y: ay,
            z: az,
        },
        passive: Vector {
            x: px,
            y: py,
            z: pz,
        },
        elevation,
        horizontal: Vector {
            x: hx,
            y: hy,
            z: hz,
        },
        vertical: Vector {
            x: vx,
            y: vy,
            z: vz,
        },
    }))
}
