// Where the operands of an op stand in the store.
#![tactic(auto)]

ghost use Rattle.std.specs.Prelude.{◌≡◌, ◌<◌};
ghost use Rattle.offsets.specs.Offsets.{offsets_of};
ghost use Rattle.spans.specs.Spans.{place_at, places_of};

use limits::Limits;
use operands::{arity_of, value_named};
use places::{Part, place_of};
use program::Parts;
use values::Values;

// The first slot of operand j, n values being defined before the op; 0 where it has no operand j.
fn place_at(
    text: &[u8],
    op: Parts,
    vs: Values,
    offsets: [usize; Limits::VALUES],
    n: usize,
    j: usize,
) -> usize
    requires { (n < 264) × (offsets ≡ offsets_of vs) }
    ensures { result ≡ place_at text.now op vs n j }
{
    if j < arity_of(op) {
        let i = value_named(text, vs, n, place_of(op, Part::OPERAND_NAME, j)).unwrap_or(n);
        return offsets[i];
    }
    0
}

// The first slot of each operand of an op, n values being defined before it; 0 where it has no such operand.
pub fn places_of(
    text: &[u8],
    op: Parts,
    vs: Values,
    offsets: [usize; Limits::VALUES],
    n: usize,
) -> [usize; Limits::OPERANDS]
    requires { (n < 264) × (offsets ≡ offsets_of vs) }
    ensures { result ≡ places_of text.now op vs n }
{
    let mut list = [0usize; Limits::OPERANDS];
    for j in 0..Limits::OPERANDS {
        list[j] = place_at(text, op, vs, offsets, n, j);
    }
    list
}
