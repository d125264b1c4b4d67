// A text from standard input, and bytes to standard output. What the system puts into memory at a read and takes at a write stands in no contract: those of std
// speak of counts only. A read or a write that fails gives one line on standard error, and a failed read is no end of the text.
#![tactic(auto)]

ghost use Rattle.std.specs.Prelude.{◌<◌, ◌≤◌, length, take, IfSome, IfOk};
ghost use Rattle.streams.specs.Cut.{CutOff};
ghost use Rattle.streams.specs.Known.{Took, TookCount, IsKept};

use arrayvec::ArrayString;
use std::env::{Env, FillError};
use std::fmt::Write as _;
use std::io;
use std::io::{Read, Write};

// How many bytes of the text are kept, and how many follow.
#[derive(Clone, Copy)]
pub struct Input {
    pub len: usize,
    pub more: usize,
}

// The system's own words for an error: what std writes of it, without its number.
fn words_of(text: &str) -> &str {
    match text.split_once(" (os error ") {
        Some((words, _)) => words,
        None => text,
    }
}

// One line on standard error, of the stream and the error.
fn tell(rt: &impl Eprint, stream: &str, error: &io::Error) {
    let mut text = ArrayString::<320>::new();
    let _ = write!(text, "{error}");
    let words = words_of(text.as_str());
    let _ = rt.eprintln(format_args!("{stream}: {words}"));
}

// Reads into `buf` until it is full or the input ends: how many bytes.
fn read_front<R: Read>(input: &mut R, buf: &mut [u8]) -> io::Result<usize>
    ensures within { IfOk result (λ n. n ≤ length buf.new) }
    ensures bytes { IfOk result (λ n. Took (R.remaining input.old) (R.remaining input.new) (take n buf.new) (n < length buf.new)) }
{
    let mut done: usize = 0;
    while done < buf.len() {
        let n = input.read(&mut buf[done..])?;
        if n == 0 {
            return Ok(done);
        }
        done += n;
    }
    Ok(done)
}

// Reads and forgets at most 65,536 bytes.
fn read_past<R: Read>(input: &mut R) -> io::Result<usize>
    ensures within { IfOk result (λ n. n ≤ 65536) }
    ensures bytes { IfOk result (λ n. TookCount (R.remaining input.old) (R.remaining input.new) n (n < 65536)) }
{
    let mut chunk = [0u8; 65536];
    read_front(input, &mut chunk)
}

// How many bytes the input still has, counted up to 2^32. Of standard input no contract can say which number: that is what the reads give.
fn further_bytes<R: Read>(input: &mut R) -> io::Result<usize>
    ensures within { IfOk result (λ n. n ≤ 4294967296) }
    ensures bytes { IfOk result (λ n. TookCount (R.remaining input.old) (R.remaining input.new) n (n < 4294967296)) }
{
    let mut total = 0;
    for _ in 0..65536usize {
        let n = read_past(input)?;
        if n == 0 {
            break;
        }
        total += n;
    }
    Ok(total)
}

// The first bytes of the input into `text`; those that follow are counted.
fn read_input<R: Read>(input: &mut R, text: &mut [u8]) -> io::Result<Input>
    ensures cut { IfOk result (λ t. CutOff (length text.new) t.len t.more) }
    ensures kept { IfOk result (λ t. IfSome (R.remaining input.old) (λ xs. IsKept xs text.new t.len t.more)) }
{
    let len = read_front(input, text)?;
    let more = if len < text.len() {
        0
    } else {
        further_bytes(input)?
    };
    Ok(Input { len, more })
}

// Reads the text on standard input, `input`: its first bytes into `text`; those that follow are counted. None where a read fails.
pub fn read_text<R: Read>(rt: &impl Eprint, input: &mut R, text: &mut [u8]) -> Option<Input>
    ensures cut { IfSome result (λ t. CutOff (length text.new) t.len t.more) }
    ensures kept { IfSome result (λ t. IfSome (R.remaining input.old) (λ xs. IsKept xs text.new t.len t.more)) }
{
    match read_input(input, text) {
        Ok(t) => Some(t),
        Err(e) => {
            tell(rt, "standard input", &e);
            None
        }
    }
}

// Writes all bytes to standard output, `output`.
pub fn write_text(rt: &impl Eprint, output: &mut impl Write, bytes: &[u8]) {
    if let Err(e) = output.write_all(bytes) {
        tell(rt, "standard output", &e);
    }
}

// Whether the program was started without arguments: it takes none.
pub fn no_arguments(rt: &(impl Env + Eprint)) -> bool {
    if matches!(rt.arg(1, &mut [0; 1]), Err(FillError::NotPresent)) {
        return true;
    }
    let _ = rt.eprintln("no argument is taken: the text is read from standard input");
    false
}
