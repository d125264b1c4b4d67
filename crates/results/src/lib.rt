// The lines that the evaluating program prints: one for each result, a dense value with its type.
#![tactic(auto)]

ghost use Rattle.std.specs.Prelude.{◌≡◌, ◌+◌, ◌<◌, ◌≤◌, length};
ghost use Rattle.laid.specs.Laid.{laid, written};
ghost use Rattle.offsets.specs.Offsets.{ValuesRead, size_at, offset_at};
ghost use Rattle.results.specs.Results.{line_at, line_of};

use laid::put;
use operands::value_named;
use places::{Part, place_of};
use printed::print_dense;
use program::Parts;
use shape::size_of;
use values::Values;

// How many bytes a line has at most: the 200,000 of a value, and the line end.
#[derive(Drop)]
pub struct Line {}

impl Line {
    pub const MOST: usize = 200001;
}

// The line of value i, whose elements begin at slot `at`, into `out` from `from` on, and the place after the last byte.
pub fn print_value(
    vs: Values,
    slots: &[u64],
    at: usize,
    i: usize,
    out: &mut [u8],
    from: usize,
) -> usize
    requires { (i < 264) × ValuesRead vs × (at ≡ offset_at vs i) × (at + size_at vs i ≤ length slots.now) × (from + 200001 ≤ length out.old) }
    ensures { laid result out.new ≡ written (line_of vs slots.now i) from out.old }
{
    let ty = vs.list[i].ty;
    let end = at + size_of(ty.shape);
    let p = print_dense(ty.element, ty.shape, &slots[at..end], out, from);
    put(out, p, b'\n')
}

// The number of the value that result j names: `op` is the return, before which n values are defined.
pub fn result_number(text: &[u8], op: Parts, vs: Values, n: usize, j: usize) -> usize
    requires { (n ≤ 264) × (j < 8) }
    ensures { result ≡ line_at text.now op vs n j }
{
    value_named(text, vs, n, place_of(op, Part::OPERAND_NAME, j)).unwrap_or(n)
}
