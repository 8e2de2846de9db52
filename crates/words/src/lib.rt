// The words of a line: what stands between blanks.
#![tactic(auto)]

ghost use Rattle.std.specs.Prelude.{◌≤◌, ◌≡◌, length};
ghost use Rattle.std.specs.List.{position};
ghost use Rattle.words.specs.Words.{is_of, word_at, is_end, starts_with, is_word};
ghost use Rattle.words.specs.Found.{Found};

// What a search looks for: a blank, any byte but a blank, the point.
#[derive(Clone, Copy)]
pub enum Byte {
    Blank,
    NotBlank,
    Point,
}

fn is_blank(b: u8) -> bool
    ensures { result ≡ is_of Byte.Blank b }
{
    matches!(b, b' ' | 9 | 13)
}

fn is(c: Byte, b: u8) -> bool
    ensures { result ≡ is_of c b }
{
    match c {
        Byte::Blank => is_blank(b),
        Byte::NotBlank => !is_blank(b),
        Byte::Point => b == b'.',
    }
}

// How many bytes stand before the first such byte, if there is one.
fn before(s: &[u8], c: Byte) -> Option<usize>
    ensures { result ≡ position (is_of c) s.now }
{
    s.iter().position(|b| is(c, *b))
}

// The place of the first such byte at or behind a place; the length if there is none.
fn until(s: &[u8], at: usize, c: Byte) -> usize
    requires { at ≤ length s.now }
    ensures { Found c s.now at result }
{
    match before(&s[at..], c) {
        Some(n) => at + n,
        None => s.len(),
    }
}

// The place of the first such byte; the length if there is none.
pub fn find(s: &[u8], c: Byte) -> usize
    ensures { Found c s.now 0 result }
{
    until(s, 0, c)
}

// The word behind the first k words of a line; empty if there is none.
pub fn word(s: &[u8], k: u64) -> &[u8]
    ensures { result.now ≡ word_at k s.now }
{
    let mut at = until(s, 0, Byte::NotBlank);
    for _passed in 0..k {
        if at == s.len() {
            return &s[at..];
        }
        let e = until(s, at, Byte::Blank);
        at = until(s, e, Byte::NotBlank);
    }
    let e = until(s, at, Byte::Blank);
    &s[at..e]
}

// Whether the line has no word behind its first k.
pub fn is_end(line: &[u8], k: u64) -> bool
    ensures { result ≡ is_end k line.now }
{
    word(line, k).is_empty()
}

// Whether s starts with t.
pub fn starts_with(s: &[u8], t: &[u8]) -> bool
    ensures { result ≡ starts_with s.now t.now }
{
    s.starts_with(t)
}

// Whether a word is t.
pub fn is_word(s: &[u8], t: &[u8]) -> bool
    ensures { result ≡ is_word s.now t.now }
{
    s == t
}
