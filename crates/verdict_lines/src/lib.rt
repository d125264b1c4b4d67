// The line of an answer: `accepted`, or `refused` and the three numbers.
#![tactic(auto)]

ghost use Rattle.std.specs.Prelude.{◌≡◌, List, ◌++◌, ℕ, ◌≤◌, length, Err};
ghost use Rattle.laid.specs.Laid.{laid, lay, written};
ghost use Rattle.judge.specs.Refusals.{numbers_of};
ghost use Rattle.streams.specs.Cut.{CutOff};
ghost use Rattle.verdict_lines.specs.Lines.{spaced, refused_line, answer_line, verdict_line, whole_refusal};

use judge::Refused;
use laid::put;
use limits::Limits;
use printed::put_text;
use verify::check;

// A space and a number in decimal.
fn put_spaced(n: usize, out: &mut [u8], from: usize) -> usize
    ensures { laid result out.new ≡ lay (spaced n) (laid from out.old) }
{
    let mut digits = [0u8; 20];
    let k = io::decimal(n as u64, &mut digits);
    let p = put(out, from, b' ');
    put_text(out, p, &digits[..k])
}

// The line of a refusal into `out` from its front: how many bytes it has, at most 71.
pub fn print_refused(r: Refused, out: &mut [u8]) -> usize
    requires { 71 ≤ length out.old }
    ensures { laid result out.new ≡ written (refused_line (numbers_of (Err r))) 0 out.old }
{
    let (number, a, b) = r.numbers();
    let p = put_text(out, 0, b"refused");
    let q = put_spaced(number, out, p);
    let s = put_spaced(a, out, q);
    let t = put_spaced(b, out, s);
    put(out, t, b'\n')
}

// The answer to a text of which `len` bytes were kept, with answer r, and `more` bytes follow.
pub fn whole_refusal(len: usize, more: usize, r: Result<(), Refused>) -> Result<(), Refused>
    requires { CutOff 65537 len more }
    ensures { numbers_of result ≡ whole_refusal len more (numbers_of r) }
{
    if len > Limits::TEXT {
        return Err(Refused::TextTooLong(len + more));
    }
    r
}

// The line of an answer into `out` from its front: how many bytes it has.
fn print_answer(r: Result<(), Refused>, out: &mut [u8]) -> usize
    requires { 71 ≤ length out.old }
    ensures { laid result out.new ≡ written (answer_line (numbers_of r)) 0 out.old }
{
    match r {
        Ok(()) => put_text(out, 0, b"accepted\n"),
        Err(e) => print_refused(e, out),
    }
}

// What the checking program prints, into `out` from its front: how many bytes it has. `text` is the first 65,537 bytes of the whole text, or all of it; `more` bytes
// follow, whatever they are.
pub fn print_verdict(text: &[u8], more: usize, out: &mut [u8]) -> usize
    requires { CutOff 65537 (length text.now) more × (71 ≤ length out.old) }
    ensures { (rest : List ℕ) → length rest ≡ more → laid result out.new ≡ written (verdict_line (text.now ++ rest)) 0 out.old }
{
    print_answer(whole_refusal(text.len(), more, check(text)), out)
}
