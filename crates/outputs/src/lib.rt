// The return against the values before it and the header: refusal 7.
#![tactic(auto)]

ghost use Rattle.std.specs.Prelude.{IfSome, unwrap_or, ◌≡◌, ◌<◌, ◌≤◌};
ghost use Rattle.dimrules.specs.Count.{first_failing, everywhere};
ghost use Rattle.typing.specs.Typing.{judged_of};
ghost use Rattle.operands.specs.Operands.{arity_of};
ghost use Rattle.outputs.specs.Outputs.{returned_at, returns_header, typed_return, return_judged};

use dimrules::same_type;
use operands::{arity_of, operands_typed};
use places::{Part, count_of, type_of};
use program::Parts;
use typing::{OpFault, results_are};
use values::Values;

fn returned_at(text: &[u8], op: Parts, header: Parts, j: usize) -> bool
    requires { j < 8 }
    ensures { result ≡ returned_at text.now op header j }
{
    let written = type_of(text, op, Part::OPERAND_TYPE, j);
    same_type(written, type_of(text, header, Part::OUTPUT_TYPE, j))
}

// The first operand of the return whose type is not that of its output.
pub fn first_unlike(text: &[u8], op: Parts, header: Parts) -> Option<usize>
    ensures place { unwrap_or result (arity_of op) ≡ first_failing (arity_of op) (returned_at text.now op header) }
    ensures within { IfSome result (λ j. j < arity_of op) }
{
    let arity = arity_of(op);
    for j in 0..arity {
        if !returned_at(text, op, header, j) {
            return Some(j);
        }
    }
    None
}

// Whether each operand of the return has the type of its output.
#[tactic(auto, unfolding(operands::specs::Operands::arity_of))]
fn each_returned(text: &[u8], op: Parts, header: Parts) -> bool
    ensures { result ≡ everywhere (arity_of op) (returned_at text.now op header) }
{
    (0..arity_of(op)).all(|j| returned_at(text, op, header, j))
}

#[tactic(auto, unfolding(crate::specs::Outputs::returns_header))]
fn returns_header(text: &[u8], op: Parts, header: Parts) -> bool
    ensures { result ≡ returns_header text.now op header }
{
    let names = count_of(op, Part::OPERAND_NAME);
    names == count_of(header, Part::OUTPUT_TYPE) && each_returned(text, op, header)
}

#[tactic(auto, unfolding(crate::specs::Outputs::typed_return))]
fn typed_return(text: &[u8], op: Parts, header: Parts, values: Values, n: usize) -> bool
    requires { n ≤ 264 }
    ensures { result ≡ typed_return text.now op header values.list n }
{
    operands_typed(text, op, values, n)
        && results_are(0, op)
        && count_of(op, Part::ATTRIBUTE_NAME) == 0
        && count_of(op, Part::BODY_OPEN) == 0
        && returns_header(text, op, header)
}

// Refusal 7 of the return.
pub fn return_judged(
    text: &[u8],
    op: Parts,
    header: Parts,
    values: Values,
    n: usize,
) -> Result<(), OpFault>
    requires { n ≤ 264 }
    ensures { judged_of result ≡ return_judged text.now op header values.list n }
{
    if typed_return(text, op, header, values, n) {
        Ok(())
    } else {
        Err(OpFault::Typing)
    }
}
