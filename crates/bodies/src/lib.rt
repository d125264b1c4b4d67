// The form of a reduction's body.
#![tactic(auto)]

ghost use Rattle.std.specs.Prelude.{◌≡◌, ◌<◌};
ghost use Rattle.bodies.specs.Bodies.{inner_op, has_count, body_counted, op_counted, row_named, is_reducer, operand_is, on_both, returns_it, as_first, one_type, formed, body_fits, argument_type, body_row};

use dimrules::{TensorType, same_type};
use optable::{Ops, find_op, op_row};
use places::{Part, count_of, place_of, type_of};
use program::{Parts, body_at, op_at};
use scope::same_at;
use text::token_at;

// The op of a body, by its first result name.
fn inner_op(text: &[u8], body: Parts) -> Parts
    ensures { result ≡ inner_op text.now body }
{
    op_at(text, place_of(body, Part::RESULT_NAME, 0))
}

// Whether part k has n tokens.
fn has_count(p: Parts, k: usize, n: usize) -> bool
    requires { k < 11 }
    ensures { result ≡ has_count p k n }
{
    count_of(p, k) == n
}

// Two arguments, one op and the return, three operands, no attribute and no body within.
#[tactic(auto, unfolding(crate::specs::Bodies::body_counted))]
fn body_counted(body: Parts) -> bool
    ensures { result ≡ body_counted body }
{
    has_count(body, Part::INPUT_NAME, 2)
        && has_count(body, Part::INPUT_TYPE, 2)
        && has_count(body, Part::OP_NAME, 2)
        && has_count(body, Part::RESULT_NAME, 1)
        && has_count(body, Part::OPERAND_NAME, 3)
        && has_count(body, Part::OPERAND_TYPE, 3)
        && has_count(body, Part::RESULT_TYPE, 1)
        && has_count(body, Part::ATTRIBUTE_NAME, 0)
        && has_count(body, Part::BODY_OPEN, 0)
}

// The op with the result is the body's first, and has two operands.
#[tactic(auto, unfolding(crate::specs::Bodies::op_counted))]
fn op_counted(body: Parts, op: Parts) -> bool
    ensures { result ≡ op_counted body op }
{
    has_count(op, Part::OP_NAME, 1)
        && place_of(op, Part::OP_NAME, 0) == place_of(body, Part::OP_NAME, 0)
        && has_count(op, Part::RESULT_NAME, 1)
        && has_count(op, Part::OPERAND_NAME, 2)
        && has_count(op, Part::OPERAND_TYPE, 2)
        && has_count(op, Part::RESULT_TYPE, 1)
}

// The row of the op whose quoted name starts at byte at.
// Kept: a number, Ops::COUNT for none, since `row_at` has a row there, and typing goes by the number.
pub fn row_named(text: &[u8], at: usize) -> usize
    ensures { result ≡ row_named text.now at }
{
    let name = token_at(text, at);
    find_op(text, at, name.end).unwrap_or(Ops::COUNT)
}

// Whether the op of a row may be a body's.
#[tactic(auto, unfolding(crate::specs::Bodies::is_reducer))]
fn is_reducer(row: usize) -> bool
    ensures { result ≡ is_reducer row }
{
    op_row(row).reducer.is_some()
}

// Whether operand j of the body is its argument i.
fn operand_is(text: &[u8], body: Parts, j: usize, i: usize) -> bool
    requires { (j < 8) × (i < 8) }
    ensures { result ≡ operand_is text.now body j i }
{
    same_at(
        text,
        place_of(body, Part::OPERAND_NAME, j),
        place_of(body, Part::INPUT_NAME, i),
    )
}

// Both arguments are operands, either way round.
#[tactic(auto, unfolding(crate::specs::Bodies::on_both))]
fn on_both(text: &[u8], body: Parts) -> bool
    ensures { result ≡ on_both text.now body }
{
    operand_is(text, body, 0, 0) && operand_is(text, body, 1, 1)
        || operand_is(text, body, 0, 1) && operand_is(text, body, 1, 0)
}

// The return names the op's result.
fn returns_it(text: &[u8], body: Parts) -> bool
    ensures { result ≡ returns_it text.now body }
{
    same_at(
        text,
        place_of(body, Part::OPERAND_NAME, 2),
        place_of(body, Part::RESULT_NAME, 0),
    )
}

// Whether token j of part k says the type of the first argument.
fn as_first(text: &[u8], body: Parts, k: usize, j: usize) -> bool
    requires { (k < 11) × (j < 8) }
    ensures { result ≡ as_first text.now body k j }
{
    same_type(
        type_of(text, body, Part::INPUT_TYPE, 0),
        type_of(text, body, k, j),
    )
}

// Every type in the body is that of the first argument.
#[tactic(auto, unfolding(crate::specs::Bodies::one_type))]
fn one_type(text: &[u8], body: Parts) -> bool
    ensures { result ≡ one_type text.now body }
{
    as_first(text, body, Part::INPUT_TYPE, 1)
        && as_first(text, body, Part::OPERAND_TYPE, 0)
        && as_first(text, body, Part::OPERAND_TYPE, 1)
        && as_first(text, body, Part::OPERAND_TYPE, 2)
        && as_first(text, body, Part::RESULT_TYPE, 0)
}

// A body of the form, by its parts and those of its op.
#[tactic(auto, unfolding(crate::specs::Bodies::formed))]
fn formed(text: &[u8], body: Parts, op: Parts) -> bool
    ensures { result ≡ formed text.now body op }
{
    let row = row_named(text, place_of(body, Part::OP_NAME, 0));
    body_counted(body)
        && op_counted(body, op)
        && is_reducer(row)
        && on_both(text, body)
        && returns_it(text, body)
        && one_type(text, body)
}

// Whether the body whose opening brace is at or after byte at is of the form.
pub fn body_fits(text: &[u8], at: usize) -> bool
    ensures { result ≡ body_fits text.now at }
{
    let body = body_at(text, at);
    formed(text, body, inner_op(text, body))
}

// The type of its argument j.
pub fn argument_type(text: &[u8], at: usize, j: usize) -> TensorType
    requires { j < 2 }
    ensures { result ≡ argument_type text.now at j }
{
    type_of(text, body_at(text, at), Part::INPUT_TYPE, j)
}

// The row of its op.
pub fn body_row(text: &[u8], at: usize) -> usize
    ensures { result ≡ body_row text.now at }
{
    row_named(text, place_of(body_at(text, at), Part::OP_NAME, 0))
}
