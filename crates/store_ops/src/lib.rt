// All ops of an accepted text over the store: each fills its own stretch, up to the first zero divisor (01, "The store").
#![tactic(auto)]

ghost use Rattle.std.specs.Prelude.{◌≡◌, ◌+◌, ◌≤◌, ◌<◌, length, take};
ghost use Rattle.values.specs.Values.{ops_of};
ghost use Rattle.offsets.specs.Offsets.{offset_at, needed_of};
ghost use Rattle.judge.specs.Refusals.{numbers_of};
ghost use Rattle.inputs.specs.Inputs.{input_slots};
ghost use Rattle.steps.specs.Steps.{op_meaning, ValuesHeld, Accepts};
ghost use Rattle.evaluation.specs.Evaluated.{ran, answer};
ghost use Rattle.evaluation.specs.State.{Stretch, Written, InputsStarted};

use elementwise::ZeroDivisor;
use judge::Refused;
use limits::Limits;
use offsets::value_size;
use program::Program;
use steps::op_step;
use values::{Values, ops_of};

// Op k, whose stretch is at..end: it is filled in the store and copied to `done`, which holds all values before it.
fn fill_at(
    text: &[u8],
    p: Program,
    vs: Values,
    starts: [usize; Limits::VALUES],
    k: usize,
    at: usize,
    end: usize,
    done: &mut [u64],
    store: &mut [u64],
) -> Result<(), ZeroDivisor>
    requires accepts { Accepts text.now p vs starts × (k < ops_of p) × ValuesHeld vs (vs.inputs + k) done.old }
    requires stretch { Stretch vs (vs.inputs + k) at end (length done.old) (length store.old) }
    ensures { Written k (op_meaning text.now k done.old) at end result done.old done.new store.old store.new }
{
    op_step(text, p, vs, starts, k, done, &mut store[at..end])?;
    done[at..end].copy_from_slice(&store[at..end]);
    Ok(())
}

// Op k.
fn fill(
    text: &[u8],
    p: Program,
    vs: Values,
    starts: [usize; Limits::VALUES],
    k: usize,
    done: &mut [u64],
    store: &mut [u64],
) -> Result<(), ZeroDivisor>
    requires accepts { Accepts text.now p vs starts × (k < ops_of p) × ValuesHeld vs (vs.inputs + k) done.old }
    requires vs_in_bounds { (needed_of vs ≤ length done.old) × (needed_of vs ≤ length store.old) × (needed_of vs ≤ 8192) }
    ensures { Written k (op_meaning text.now k done.old) (offset_at vs (vs.inputs + k)) (offset_at vs (vs.inputs + k + 1)) result done.old done.new store.old store.new }
{
    let i = vs.inputs + k;
    let at = starts[i];
    let end = at + value_size(vs, i);
    fill_at(text, p, vs, starts, k, at, end, done, store)
}

// All ops. The inputs stand in the store and in `done`. Refusal 12 has the op and the element that the walk of a division yields.
pub fn run_ops(
    text: &[u8],
    p: Program,
    vs: Values,
    starts: [usize; Limits::VALUES],
    needed: usize,
    done: &mut [u64],
    store: &mut [u64],
) -> Result<(), Refused>
    requires { Accepts text.now p vs starts × (needed ≡ needed_of vs) × InputsStarted vs done.old store.old }
    ensures { answer (numbers_of result) store.new ≡ ran text.now (take (input_slots vs) store.old) store.old }
{
    let n = ops_of(p);
    for k in 0..n {
        if let Err(z) = fill(text, p, vs, starts, k, done, store) {
            store[starts[vs.inputs + k]..needed].fill(0);
            return Err(Refused::ZeroDivisor(z.op, z.element));
        }
    }
    Ok(())
}
