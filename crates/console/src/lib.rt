// What the programs read and write around the proved routines. What comes in, and what becomes of what goes out, is the
// world's: the contracts say what is certain of the lent buffers.
#![tactic(auto)]

ghost use Rattle.std.specs.Prelude.{◌≡◌, ◌+◌, ◌<◌, ◌≤◌, length, take, drop, false, IfOk, OnErr};
ghost use Rattle.std.specs.Io.KnownBytes.{Consumes, IsAtEnd, Keeps};
ghost use Rattle.console.specs.Counts.{IsPrefixLen};

use std::env::{Env, FillError};
use std::io::{Cursor, Error, Read, Write};
use std::rt::Files;
use std::{fs, io};

// Longer than any name of a file.
pub const WORD: usize = 4096;

// The system's numbers for a word that is not there and for one that is too long, which std does not pass on.
const NO_WORD: i32 = 22;

const TOO_LONG: i32 = 36;

// What was read of an input: so many bytes at the front of the buffer. Where a read failed there may have been more.
#[derive(Clone, Copy)]
pub struct Input {
    pub length: usize,
    pub failed: bool,
}

// A file that the command names: the file itself, where it is open, and the length of its name.
#[derive(Drop)]
pub struct Named<F> {
    pub file: Option<F>,
    pub length: usize,
}

// A message of bytes as the text that it is; none of the programs' own is anything else.
fn text(message: &[u8]) -> &str {
    str::from_utf8(message).unwrap_or("a name that is not UTF-8")
}

// Writes a message to standard error. Where that cannot be written there is nobody left to tell.
pub fn say(rt: &impl Eprint, message: &[u8])
    ensures { Unit {0} }
{
    let _ = rt.eprint(text(message));
}

// The system's words for an error: what std writes, without the number at its end.
fn reason(written: &str) -> &str {
    match written.split_once(" (os error ") {
        Some((words, _)) => words,
        None => written,
    }
}

// Writes a line to standard error: what failed, a colon and why.
pub fn fail(rt: &impl Eprint, what: &[u8], why: Error)
    ensures { Unit {0} }
{
    let mut to = Cursor::new([0u8; 128]);
    let _ = write!(to, "{why}");
    let n = to.position().min(128) as usize;
    let written = to.into_inner();
    let words = reason(text(&written[..n]));
    let what = text(what);
    let _ = eprintln!(rt; "{what}: {words}");
}

// Writes the text to standard output, and answers whether that went well; else standard error says so. An empty text is
// no write at all.
pub fn print(rt: &(impl Print + Eprint), text: &[u8]) -> bool
    ensures { Unit {0} }
{
    match rt.write_all(text) {
        Ok(()) => true,
        Err(why) => {
            fail(rt, b"standard output", why);
            false
        }
    }
}

// One read into the buffer behind its first bytes, which stay as they are.
fn read_behind<R: Read>(from: &mut R, buf: &mut [u8], at: usize) -> io::Result<usize>
    requires { at < length buf.old }
    ensures front { take at buf.new ≡ take at buf.old }
    ensures within { IfOk result (λ n. at + n ≤ length buf.new) }
    ensures bytes { IfOk result (λ n. Consumes (R.remaining from.old) (R.remaining from.new) (take n (drop at buf.new))) }
    ensures end { IfOk result (λ n. n ≡ 0 → IsAtEnd (R.remaining from.new)) }
    ensures failed { OnErr result (Keeps (R.remaining from.old) (R.remaining from.new)) }
{
    from.read(&mut buf[at..])
}

// Reads an input to its end, or until the buffer is full. Where a read fails standard error says so, by the input's name.
// What the buffer holds then is what the input began with.
pub fn read_whole<R: Read>(rt: &impl Eprint, from: &mut R, name: &[u8], buf: &mut [u8]) -> Input
    ensures within { IsPrefixLen result.length buf.new }
    ensures bytes { Consumes (R.remaining from.old) (R.remaining from.new) (take result.length buf.new) }
    ensures end { result.failed ≡ false → result.length < length buf.new → IsAtEnd (R.remaining from.new) }
{
    let mut length = 0;
    let mut failed = false;
    while length < buf.len() {
        match read_behind(from, buf, length) {
            Ok(0) => break,
            Ok(n) => length += n,
            Err(why) => {
                fail(rt, name, why);
                failed = true;
                break;
            }
        }
    }
    Input { length, failed }
}

// One read of standard input: what is there, or no byte at its end. Where the read fails standard error says so.
pub fn read_some<R: Read>(rt: &impl Eprint, from: &mut R, buf: &mut [u8]) -> Input
    ensures within { IsPrefixLen result.length buf.new }
    ensures bytes { Consumes (R.remaining from.old) (R.remaining from.new) (take result.length buf.new) }
    ensures end { result.failed ≡ false → result.length ≡ 0 → 0 < length buf.new → IsAtEnd (R.remaining from.new) }
{
    match from.read(buf) {
        Ok(count) => Input {
            length: count,
            failed: false,
        },
        Err(why) => {
            fail(rt, b"standard input", why);
            Input {
                length: 0,
                failed: true,
            }
        }
    }
}

// How many words the command has, with the program's name.
pub fn arg_count(rt: &impl Env) -> usize
    ensures { Unit {0} }
{
    for i in 0..usize::MAX {
        if let Err(FillError::NotPresent) = rt.arg(i, &mut []) {
            return i;
        }
    }
    usize::MAX
}

// Puts word i of the command at the front of a lent buffer; word 0 is the program's name.
pub fn arg(rt: &impl Env, i: usize, buf: &mut [u8]) -> io::Result<usize>
    ensures { IfOk result (λ n. IsPrefixLen n buf.new) }
{
    rt.arg(i, buf).map_err(|why| match why {
        FillError::NotPresent => Error::from_raw_os_error(NO_WORD),
        FillError::TooLong => Error::from_raw_os_error(TOO_LONG),
    })
}

// Opens the file that word 1 of the command names, with the name at the front of a lent buffer; where that goes wrong
// standard error says so.
pub fn open_named<R: Env + Files + Eprint>(rt: &R, name: &mut [u8]) -> Named<R::File>
    ensures { IsPrefixLen result.length name.new }
{
    match arg(rt, 1, name) {
        Err(why) => {
            fail(rt, b"file name", why);
            Named {
                file: None,
                length: 0,
            }
        }
        Ok(length) => {
            let file = open(rt, &name[..length]);
            Named { file, length }
        }
    }
}

// A file to be read, by its name, which std has as text.
fn open<R: Files + Eprint>(rt: &R, name: &[u8]) -> Option<R::File> {
    if name.is_empty() {
        say(rt, b"the file name is empty\n");
        return None;
    }
    let Ok(path) = str::from_utf8(name) else {
        say(rt, b"the file name is not UTF-8\n");
        return None;
    };
    match fs::File::open(rt, path) {
        Ok(file) => Some(file),
        Err(why) => {
            fail(rt, name, why);
            None
        }
    }
}
