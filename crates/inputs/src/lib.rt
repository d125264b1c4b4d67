// The input slice against the program's inputs.
#![tactic(auto)]

ghost use Rattle.std.specs.Prelude.{◌≡◌, ◌≤◌, ◌<◌, length, unwrap_or, IfSome};
ghost use Rattle.offsets.specs.Offsets.{ValuesRead, offsets_of};
ghost use Rattle.inputs.specs.Inputs.{input_slots, input_of, slot_fits, first_foreign};

use element::is_value;
use limits::Limits;
use offsets::offsets_of;
use values::Values;

// How many slots the inputs have together.
pub fn input_slots(vs: Values) -> usize
    requires { ValuesRead vs × (vs.inputs ≤ 8) }
    ensures { result ≡ input_slots vs }
{
    offsets_of(vs)[vs.inputs]
}

// The input that slot s belongs to.
fn input_of(vs: Values, offsets: [usize; Limits::VALUES], s: usize) -> usize
    requires { (offsets ≡ offsets_of vs) × (vs.inputs ≤ 8) }
    ensures { result ≡ input_of vs s }
{
    for i in 0..vs.inputs {
        if s < offsets[i + 1] {
            return i;
        }
    }
    vs.inputs
}

// Whether slot s is a value of the type of its input.
fn slot_fits(vs: Values, offsets: [usize; Limits::VALUES], inputs: &[u64], s: usize) -> bool
    requires { (offsets ≡ offsets_of vs) × (vs.inputs ≤ 8) × (s < length inputs.now) }
    ensures { result ≡ slot_fits vs inputs.now s }
{
    is_value(vs.list[input_of(vs, offsets, s)].ty.element, inputs[s])
}

// The lowest input slot that is no value of its type.
pub fn first_foreign(vs: Values, inputs: &[u64]) -> Option<usize>
    requires { ValuesRead vs × (vs.inputs ≤ 8) × (length inputs.now ≡ input_slots vs) }
    ensures lowest { unwrap_or result (input_slots vs) ≡ first_foreign vs inputs.now }
    ensures within { IfSome result (λ s. s < input_slots vs) }
{
    let offsets = offsets_of(vs);
    for s in 0..inputs.len() {
        if !slot_fits(vs, offsets, inputs, s) {
            return Some(s);
        }
    }
    None
}
