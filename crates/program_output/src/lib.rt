// What the evaluating program prints: the lines of the results, or `refused` and the three numbers (01, "Table of examples").
#![tactic(auto)]

ghost use Rattle.std.specs.Prelude.{◌≡◌, List, ◌++◌, ℕ, ◌≤◌, length};
ghost use Rattle.laid.specs.Laid.{laid, written};
ghost use Rattle.judge.specs.Refusals.{numbers_of};
ghost use Rattle.evaluation.specs.Evaluated.{answer};
ghost use Rattle.streams.specs.Cut.{CutOff};
ghost use Rattle.program_output.specs.Output.{alone, output_of};

use evaluate::evaluate;
use judge::Refused;
use limits::Limits;
use result_lines::print_results;
use verdict_lines::{print_refused, whole_refusal};

// The output of a text with answer r, whose values stand in the store.
fn print_evaluated(
    text: &[u8],
    more: usize,
    r: Result<(), Refused>,
    store: &[u64],
    out: &mut [u8],
) -> usize
    requires { CutOff 65537 (length text.now) more × (1600008 ≤ length out.old) × (length store.now ≡ 8192) × (answer (numbers_of r) store.now ≡ alone text.now) }
    ensures { (rest : List ℕ) → length rest ≡ more → laid result out.new ≡ written (output_of (text.now ++ rest)) 0 out.old }
{
    match whole_refusal(text.len(), more, r) {
        Ok(()) => print_results(text, store, out),
        Err(e) => print_refused(e, out),
    }
}

// Evaluates a text and puts what is printed into `out` from its front: how many bytes it has. `text` is the first 65,537 bytes of the whole text, or all of it; `more`
// bytes follow, whatever they are.
pub fn print_output(text: &[u8], more: usize, out: &mut [u8]) -> usize
    requires { CutOff 65537 (length text.now) more × (1600008 ≤ length out.old) }
    ensures { (rest : List ℕ) → length rest ≡ more → laid result out.new ≡ written (output_of (text.now ++ rest)) 0 out.old }
{
    let mut store = [0u64; Limits::ELEMENTS];
    let r = evaluate(text, &[0u64; 0], &mut store);
    print_evaluated(text, more, r, &store, out)
}
