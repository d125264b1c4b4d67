// An op's operands against the values before it.
#![tactic(auto)]

ghost use Rattle.std.specs.Prelude.{◌≡◌, ◌<◌, ◌≤◌, IfSome, unwrap_or};
ghost use Rattle.dimrules.specs.Count.{first_failing, everywhere};
ghost use Rattle.operands.specs.Operands.{value_named, arity_of, operand_typed, operands_typed};

use dimrules::same_type;
use limits::Limits;
use places::{Part, count_of, place_of, type_of};
use program::Parts;
use scope::same_at;
use values::Values;

// The value that the name at byte a stands for, among the first n.
pub fn value_named(text: &[u8], values: Values, n: usize, a: usize) -> Option<usize>
    requires { n ≤ 264 }
    ensures place { unwrap_or result n ≡ value_named text.now values.list n a }
    ensures within { IfSome result (λ i. i < n) }
{
    values.list[..n]
        .iter()
        .position(|v| same_at(text, v.name, a))
}

// How many operands there are, at most 8.
#[tactic(auto, unfolding(crate::specs::Operands::arity_of))]
pub fn arity_of(op: Parts) -> usize
    ensures { result ≡ arity_of op }
{
    count_of(op, Part::OPERAND_NAME).min(Limits::OPERANDS)
}

// Whether operand j is defined and its written type is that of its definition.
fn operand_typed(text: &[u8], op: Parts, values: Values, n: usize, j: usize) -> bool
    requires { (n ≤ 264) × (j < 8) }
    ensures { result ≡ operand_typed text.now op values.list n j }
{
    let named = value_named(text, values, n, place_of(op, Part::OPERAND_NAME, j));
    let written = type_of(text, op, Part::OPERAND_TYPE, j);
    match named {
        Some(i) => same_type(written, values.list[i].ty),
        None => false,
    }
}

// The first operand that is not.
pub fn first_untyped(text: &[u8], op: Parts, values: Values, n: usize) -> Option<usize>
    requires { n ≤ 264 }
    ensures place { unwrap_or result (arity_of op) ≡ first_failing (arity_of op) (operand_typed text.now op values.list n) }
    ensures within { IfSome result (λ j. j < arity_of op) }
{
    let arity = arity_of(op);
    for j in 0..arity {
        if !operand_typed(text, op, values, n, j) {
            return Some(j);
        }
    }
    None
}

// Whether each of at most 8 operands is.
#[tactic(auto, unfolding(crate::specs::Operands::arity_of))]
fn each_typed(text: &[u8], op: Parts, values: Values, n: usize) -> bool
    requires { n ≤ 264 }
    ensures { result ≡ everywhere (arity_of op) (operand_typed text.now op values.list n) }
{
    (0..arity_of(op)).all(|j| operand_typed(text, op, values, n, j))
}

// Whether every operand is defined, with its written type.
#[tactic(auto, unfolding(crate::specs::Operands::operands_typed))]
pub fn operands_typed(text: &[u8], op: Parts, values: Values, n: usize) -> bool
    requires { n ≤ 264 }
    ensures { result ≡ operands_typed text.now op values.list n }
{
    let names = count_of(op, Part::OPERAND_NAME);
    names < Parts::MORE
        && count_of(op, Part::OPERAND_TYPE) == names
        && each_typed(text, op, values, n)
}
