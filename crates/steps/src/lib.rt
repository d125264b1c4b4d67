// Op k of an accepted text on the values before it.
#![tactic(auto)]

ghost use Rattle.std.specs.Prelude.{◌≡◌, ◌+◌, ◌<◌, length};
ghost use Rattle.values.specs.Values.{ops_of};
ghost use Rattle.offsets.specs.Offsets.{size_at};
ghost use Rattle.doing.specs.Doing.{Done};
ghost use Rattle.steps.specs.Steps.{op_meaning, ValuesHeld, Accepts};

use doing::do_op;
use elementwise::ZeroDivisor;
use kinds::{kind_of, literal_of};
use limits::Limits;
use program::{Program, op_at};
use spans::places_of;
use typing::{operation_of, row_of};
use values::Values;

// Op k: `slots` holds the values before it, `out` is its result's stretch.
pub fn op_step(
    text: &[u8],
    p: Program,
    vs: Values,
    starts: [usize; Limits::VALUES],
    k: usize,
    slots: &[u64],
    out: &mut [u64],
) -> Result<(), ZeroDivisor>
    requires accepts { Accepts text.now p vs starts × (k < ops_of p) }
    requires values_held { ValuesHeld vs (vs.inputs + k) slots.now × (length out.old ≡ size_at vs (vs.inputs + k)) }
    ensures { Done k (op_meaning text.now k slots.now) result out.old out.new }
{
    let op = op_at(text, p.ops[k]);
    let o = operation_of(text, op, row_of(text, op));
    let kind = kind_of(text, op);
    let literal = literal_of(text, op);
    let places = places_of(text, op, vs, starts, vs.inputs + k);
    do_op(text, k, kind, o, literal, places, slots, out)
}
