// Evaluating a text over the store (01, "The store"): refusals 0 to 12, and what the store then holds.
#![tactic(auto)]

ghost use Rattle.std.specs.Prelude.{◌≡◌, ◌≤◌, length};
ghost use Rattle.program.specs.Program.{program_of};
ghost use Rattle.values.specs.Values.{values_of};
ghost use Rattle.offsets.specs.Offsets.{needed_of};
ghost use Rattle.judge.specs.Refusals.{numbers_of};
ghost use Rattle.verify.specs.Verify.{verdict};
ghost use Rattle.inputs.specs.Inputs.{input_slots, first_foreign};
ghost use Rattle.evaluation.specs.Evaluated.{ran, fitted, evaluated, answer};
ghost use Rattle.evaluation.specs.Order.{OrderFreeAnswer};
ghost use Rattle.evaluation.specs.State.{copied};
ghost use Rattle.answers.specs.Answered.{answer_of};
ghost use Rattle.answers.specs.FreeRuns.{FreeOfOrder};

use inputs::{first_foreign, input_slots};
use judge::Refused;
use limits::Limits;
use offsets::{needed_of, offsets_of};
use program::{Program, program_of};
use store_ops::run_ops;
use values::{Values, values_in};
use verify::check;

// Copies x to the front of out.
fn copy_front(x: &[u64], out: &mut [u64])
    requires { length x.now ≤ length out.old }
    ensures { out.new ≡ copied x.now out.old }
{
    for k in 0..x.len() {
        out[k] = x[k];
    }
}

// The inputs are copied to the store and to `done`, then the ops are done.
fn run_over(
    text: &[u8],
    p: Program,
    vs: Values,
    needed: usize,
    inputs: &[u64],
    done: &mut [u64],
    store: &mut [u64],
) -> Result<(), Refused>
    requires text_value { ((verdict text.now).number ≡ 0) × (p ≡ program_of text.now) × (vs ≡ values_of text.now) × (needed ≡ needed_of vs) }
    requires inputs_len { (length inputs.now ≡ input_slots vs) × (first_foreign vs inputs.now ≡ input_slots vs) }
    requires done_len { (length done.old ≡ 8192) × (needed ≤ length store.old) }
    ensures { answer (numbers_of result) store.new ≡ ran text.now inputs.now store.old }
{
    let starts = offsets_of(vs);
    copy_front(inputs, done);
    copy_front(inputs, store);
    run_ops(text, p, vs, starts, needed, done, store)
}

// A program on inputs that fit.
fn run_program(
    text: &[u8],
    p: Program,
    vs: Values,
    needed: usize,
    inputs: &[u64],
    store: &mut [u64],
) -> Result<(), Refused>
    requires text_value { ((verdict text.now).number ≡ 0) × (p ≡ program_of text.now) × (vs ≡ values_of text.now) × (needed ≡ needed_of vs) }
    requires inputs_len { (length inputs.now ≡ input_slots vs) × (first_foreign vs inputs.now ≡ input_slots vs) × (needed ≤ length store.old) }
    ensures { answer (numbers_of result) store.new ≡ ran text.now inputs.now store.old }
{
    let mut done = [0u64; Limits::ELEMENTS];
    run_over(text, p, vs, needed, inputs, &mut done, store)
}

// Refusals 9 to 12 of an accepted text.
fn run_fitted(
    text: &[u8],
    p: Program,
    vs: Values,
    inputs: &[u64],
    store: &mut [u64],
) -> Result<(), Refused>
    requires { ((verdict text.now).number ≡ 0) × (p ≡ program_of text.now) × (vs ≡ values_of text.now) }
    ensures { answer (numbers_of result) store.new ≡ fitted text.now inputs.now store.old }
{
    let needed = needed_of(vs);
    if store.len() < needed {
        return Err(Refused::StoreShort(needed));
    }
    let slots = input_slots(vs);
    if inputs.len() != slots {
        return Err(Refused::InputCount(slots));
    }
    if let Some(s) = first_foreign(vs, inputs) {
        return Err(Refused::ForeignInput(s));
    }
    run_program(text, p, vs, needed, inputs, store)
}

// Refusals 0 to 12.
fn run_text(text: &[u8], inputs: &[u64], store: &mut [u64]) -> Result<(), Refused>
    ensures { answer (numbers_of result) store.new ≡ evaluated text.now inputs.now store.old }
{
    check(text)?;
    let p = program_of(text);
    run_fitted(text, p, values_in(text, p), inputs, store)
}

// The bench: the refusal of a text on its inputs, A and B. The store afterwards follows from the text, the inputs and what it held; and the answer owes
// nothing to the order of work. Each is said twice: over the program as the code reads it, and, in the words of 01, as it is written.
pub fn evaluate(text: &[u8], inputs: &[u64], store: &mut [u64]) -> Result<(), Refused>
    ensures store_after { answer (numbers_of result) store.new ≡ evaluated text.now inputs.now store.old }
    ensures order_free_answer { OrderFreeAnswer text.now inputs.now (numbers_of result).number store.new }
    ensures store_after_2 { answer (numbers_of result) store.new ≡ answer_of text.now inputs.now store.old }
    ensures free_of_order { FreeOfOrder text.now inputs.now (numbers_of result).number store.new }
{
    run_text(text, inputs, store)
}
