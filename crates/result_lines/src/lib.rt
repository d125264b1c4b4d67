// The lines of an accepted text's results, one after the other in a lent buffer (01, "prints one line per result").
#![tactic(auto)]

ghost use Rattle.std.specs.Prelude.{◌≡◌, ◌+◌, ◌<◌, ◌≤◌, length};
ghost use Rattle.laid.specs.Laid.{laid, written};
ghost use Rattle.program.specs.Program.{program_of};
ghost use Rattle.values.specs.Values.{values_in};
ghost use Rattle.offsets.specs.Offsets.{ValuesRead, offsets_of, needed_of};
ghost use Rattle.verify.specs.Verify.{verdict};
ghost use Rattle.results.specs.Results.{line_of};
ghost use Rattle.result_lines.specs.ResultLines.{result_lines};

use limits::Limits;
use offsets::offsets_of;
use operands::arity_of;
use program::{Program, op_at, program_of};
use results::{Line, print_value, result_number};
use values::{Values, ops_of, values_in};

// How many bytes the lines of a text have at most.
#[derive(Drop)]
pub struct Lines {}

impl Lines {
    pub const MOST: usize = Limits::OPERANDS * Line::MOST;
}

// The line of value i into `out` from `from` on, and the place after it.
fn print_result(
    vs: Values,
    starts: [usize; Limits::VALUES],
    store: &[u64],
    i: usize,
    out: &mut [u8],
    from: usize,
) -> usize
    requires { (i < vs.count) × ValuesRead vs × (starts ≡ offsets_of vs) × (needed_of vs ≤ length store.now) × (from + 200001 ≤ length out.old) }
    ensures { laid result out.new ≡ written (line_of vs store.now i) from out.old }
{
    print_value(vs, store, starts[i], i, out, from)
}

// A line for each value that the return names.
fn print_lines(text: &[u8], p: Program, vs: Values, store: &[u64], out: &mut [u8]) -> usize
    requires text_value { ((verdict text.now).number ≡ 0) × (p ≡ program_of text.now) × (vs ≡ values_in text.now p) }
    requires store_len { (length store.now ≡ 8192) × (1600008 ≤ length out.old) }
    ensures { laid result out.new ≡ written (result_lines text.now store.now) 0 out.old }
{
    let op = op_at(text, p.ops[ops_of(p)]);
    let n = vs.count;
    let starts = offsets_of(vs);
    let mut place = 0;
    for j in 0..arity_of(op) {
        place = print_result(
            vs,
            starts,
            store,
            result_number(text, op, vs, n, j),
            out,
            place,
        );
    }
    place
}

// The lines of an accepted text's results, whose values stand in the store, into `out` from its front: how many bytes they have.
pub fn print_results(text: &[u8], store: &[u64], out: &mut [u8]) -> usize
    requires { ((verdict text.now).number ≡ 0) × (length store.now ≡ 8192) × (1600008 ≤ length out.old) }
    ensures { laid result out.new ≡ written (result_lines text.now store.now) 0 out.old }
{
    let p = program_of(text);
    print_lines(text, p, values_in(text, p), store, out)
}
