// The settings' versions as lines, each made at the front of a lent buffer whose bytes past them stay.
#![tactic(auto)]

ghost use Rattle.text.specs.Text.{InFront};
ghost use Rattle.text.specs.Pieces.{Laid};
ghost use Rattle.versions.specs.Versions.{constant_pieces, version_pieces, looked_pieces, version_lines, list_pieces, show_room, show_text, list_room, list_text};

use refusal::Refusal;
use settings::Setting;

fn constants(buf: &mut [u8], at: usize, x: Setting) -> usize
    ensures { Laid buf.old at (constant_pieces x) buf.new result }
{
    let mu = [x.mu];
    let radius = [x.radius];
    let closed = [x.closed];
    let fair = [x.fair];
    let all = [x.mu, x.radius, x.closed, x.fair];
    let a = columns::labelled(buf, at, b" mu", &mu);
    let b = columns::labelled(buf, a, b" radius", &radius);
    let c = columns::labelled(buf, b, b" closed", &closed);
    let d = columns::labelled(buf, c, b" fair", &fair);
    columns::end(buf, d, &all)
}

fn version(buf: &mut [u8], at: usize, k: u64, x: Setting) -> usize
    ensures { Laid buf.old at (version_pieces k x) buf.new result }
{
    let a = text::bytes(buf, at, b"version ");
    let b = text::number(buf, a, k);
    let c = text::bytes(buf, b, b" body ");
    let d = text::number(buf, c, x.body);
    constants(buf, d, x)
}

fn looked(buf: &mut [u8], k: u64, l: Result<Setting, Refusal>) -> usize
    ensures { Laid buf.old 0 (looked_pieces k l) buf.new result }
{
    match l {
        Ok(x) => version(buf, 0, k, x),
        Err(refusal) => columns::refused(buf, refusal),
    }
}

// The line of version k of a used part, or of the refusal: its length, or 15 for a buffer of under 512 bytes.
pub fn show(s: &[u8], k: u64, buf: &mut [u8]) -> Result<usize, Refusal>
    ensures { InFront show_room (show_text s.now k) buf.old buf.new result }
{
    if buf.len() < 512 {
        return Err(Refusal::NoRoom);
    }
    Ok(looked(buf, k, settings::look_up(s, k)))
}

// The versions of a used part one after another, up to the first that is refused.
fn lines(s: &[u8], buf: &mut [u8]) -> usize
    ensures { Laid buf.old 0 (version_lines 64 1 s.now) buf.new result }
{
    let mut e = 0;
    for k in 1..=64 {
        match settings::look_up(s, k) {
            Ok(x) => e = version(buf, e, k, x),
            Err(_) => return e,
        }
    }
    e
}

fn listed(s: &[u8], buf: &mut [u8]) -> usize
    ensures { Laid buf.old 0 (list_pieces s.now) buf.new result }
{
    match settings::look_up(s, 1) {
        Ok(_) => lines(s, buf),
        Err(refusal) => match refusal {
            Refusal::NoVersion => 0,
            _ => columns::refused(buf, refusal),
        },
    }
}

// A line a version, or the line of the refusal: their length, or 15 for a buffer of under 16,384 bytes.
pub fn list(s: &[u8], buf: &mut [u8]) -> Result<usize, Refusal>
    ensures { InFront list_room (list_text s.now) buf.old buf.new result }
{
    if buf.len() < 16384 {
        return Err(Refusal::NoRoom);
    }
    Ok(listed(s, buf))
}
