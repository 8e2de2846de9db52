// A line of the desk, read: which routine it asks, and with what.
#![tactic(auto)]

ghost use Rattle.std.specs.Prelude.{◌≡◌};
ghost use Rattle.words.specs.Words.{word_at};
ghost use Rattle.forms.specs.Forms.{read_by};
ghost use Rattle.solves.specs.Solves.{solve_form};
ghost use Rattle.requests.specs.Requests.{AsksOne, routines, is_comment, request_of};

use forms::Request;

// One number, and no word more.
fn one(line: &[u8]) -> Result<f64, u64>
    ensures { AsksOne result line.now }
{
    let [x] = forms::only_numbers_as_array::<1>(line, 1)?;
    Ok(x)
}

// A solve, by its name.
fn solve(line: &[u8]) -> Result<Request, u64>
    ensures { result ≡ read_by (solve_form Request.Solve) 0 line.now }
{
    solves::read(line, 0).map(Request::Solve)
}

// The reason of a solve's answer: the solve stands behind the word.
fn why(line: &[u8]) -> Result<Request, u64>
    ensures { result ≡ read_by (solve_form Request.Why) 1 line.now }
{
    solves::read(line, 1).map(Request::Why)
}

fn routine(name: &[u8], line: &[u8]) -> Result<Request, u64>
    requires { name.now ≡ word_at 0 line.now }
    ensures { result ≡ read_by routines 0 line.now }
{
    if words::is_word(name, b"root") {
        return one(line).map(Request::Root);
    }
    if words::is_word(name, b"c") {
        return one(line).map(Request::C);
    }
    if words::is_word(name, b"s") {
        return one(line).map(Request::S);
    }
    if words::is_word(name, b"trial") {
        return single::trial(line);
    }
    if words::is_word(name, b"wheel") {
        return looks::wheel(line);
    }
    if words::is_word(name, b"sight") {
        return looks::sight(line);
    }
    if words::is_word(name, b"cdh") {
        return courses::cdh(line);
    }
    if words::is_word(name, b"why") {
        return why(line);
    }
    solve(line)
}

fn is_comment(line: &[u8]) -> bool
    ensures { result ≡ is_comment line.now }
{
    line.first() == Some(&b'#')
}

// What a line asks, or the number of its first word that cannot be read; 0 for a line of over 1,000 bytes. The line is
// without its newline.
#[tactic(auto, unfolding(crate::specs::Requests::request_of))]
pub fn read(line: &[u8]) -> Result<Request, u64>
    ensures { result ≡ request_of line.now }
{
    if is_comment(line) {
        return Ok(Request::Nothing);
    }
    if line.len() > 1000 {
        return Err(0);
    }
    let name = words::word(line, 0);
    if name.is_empty() {
        return Ok(Request::Nothing);
    }
    routine(name, line)
}
