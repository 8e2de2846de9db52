// Settings that keep their history: the grades' two fractions and the body constants as versions in a lent buffer. A new
// version is one more than the latest; none is changed, and an old one comes back as a copy under the next number.
#![tactic(auto)]

mod allowed;
mod layout;

ghost use Rattle.std.specs.Prelude.{◌≡◌, take};
ghost use Rattle.settings.specs.History.{look_up, version_in, next_of, stored_of, back_of, buffer_after};

pub use allowed::{Setting, refusal_of};
use layout::{is_whole, put_version, setting_of};
use refusal::Refusal;

// Version k of a used part.
pub fn look_up(s: &[u8], k: u64) -> Result<Setting, Refusal>
    ensures { result ≡ look_up s.now k }
{
    if !is_whole(s) {
        Err(Refusal::NoSettings)
    } else if k < 1 || k > (s.len() / 44) as u64 {
        Err(Refusal::NoVersion)
    } else {
        let at = 44 * (k - 1) as usize;
        Ok(setting_of(&s[at..]))
    }
}

// The setting as the next version, behind the used bytes.
fn put_next(buf: &mut [u8], used: usize, x: Setting) -> Result<(u64, usize), Refusal>
    ensures { (result ≡ next_of buf.old used) × (buf.new ≡ buffer_after result buf.old used x) }
{
    let n = used / 44;
    if n >= 64 {
        return Err(Refusal::NoVersionLeft);
    }
    let e = used + 44;
    if buf.len() < e {
        return Err(Refusal::NoRoom);
    }
    let k = n as u64 + 1;
    put_version(buf, used, k, x);
    Ok((k, e))
}

// Stores a setting as the next version.
pub fn store(buf: &mut [u8], used: usize, x: Setting) -> Result<(u64, usize), Refusal>
    ensures { (result ≡ stored_of buf.old used x) × (buf.new ≡ buffer_after result buf.old used x) }
{
    if used > buf.len() || !is_whole(&buf[..used]) {
        return Err(Refusal::NoSettings);
    }
    if let Some(refusal) = refusal_of(x) {
        return Err(refusal);
    }
    put_next(buf, used, x)
}

// Stores a copy of version k as the next version.
pub fn go_back(buf: &mut [u8], used: usize, k: u64) -> Result<(u64, usize), Refusal>
    ensures { (result ≡ back_of buf.old used k) × (buf.new ≡ buffer_after result buf.old used (version_in (take used buf.old) k)) }
{
    if used > buf.len() {
        return Err(Refusal::NoSettings);
    }
    let x = look_up(&buf[..used], k)?;
    put_next(buf, used, x)
}
