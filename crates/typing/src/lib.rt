// One op against the values before it and its row of the op table: refusals 7 and 8.
#![tactic(auto)]

ghost use Rattle.std.specs.Prelude.{◌≡◌, ◌<◌, ◌≤◌};
ghost use Rattle.lists.specs.Lists.{tab};
ghost use Rattle.operands.specs.Operands.{arity_of};
ghost use Rattle.typing.specs.Typing.{judged_of};
ghost use Rattle.typing.specs.Typing.{row_named_in, types_of, body_type, operation_of, results_are, bodies_fit, in_table, typed_op, op_judged};

use bodies::{argument_type, body_fits, row_named};
use dimrules::TensorType;
use limits::Limits;
use opcheck::{Operation, broken_by, taken_by_tables};
use operands::{arity_of, operands_typed};
use optable::{Attributes, Ops, Row, op_row};
use places::{Part, blank_type, count_of, place_of, type_of};
use program::Parts;
use values::Values;

// What refuses an op after its names.
#[derive(Clone, Copy)]
pub enum OpFault {
    // Refusal 7.
    Typing,
    // Refusal 8, by the C number of the broken constraint.
    Constraint(usize),
}

// The op's row of the op table.
pub fn row_of(text: &[u8], op: Parts) -> Row
    ensures { result ≡ row_named_in text.now op }
{
    op_row(row_named(text, place_of(op, Part::OP_NAME, 0)))
}

fn type_at(text: &[u8], op: Parts, j: usize) -> TensorType
    requires { j < 8 }
    ensures { result ≡ types_of text.now op j }
{
    if j < arity_of(op) {
        return type_of(text, op, Part::OPERAND_TYPE, j);
    }
    blank_type()
}

// The types of its operands as written.
fn types_of(text: &[u8], op: Parts) -> [TensorType; Limits::OPERANDS]
    ensures { result ≡ tab 8 (types_of text.now op) }
{
    let mut types = [blank_type(); Limits::OPERANDS];
    for j in 0..Limits::OPERANDS {
        types[j] = type_at(text, op, j);
    }
    types
}

// The type of argument j of its body.
fn body_type(text: &[u8], op: Parts, row: Row, j: usize) -> TensorType
    requires { j < 2 }
    ensures { result ≡ body_type text.now op row j }
{
    if row.body {
        return argument_type(text, place_of(op, Part::BODY_OPEN, 0), j);
    }
    blank_type()
}

// What is read of an op.
pub fn operation_of(text: &[u8], op: Parts, row: Row) -> Operation
    ensures { result ≡ operation_of text.now op row }
{
    let arity = arity_of(op);
    let types = types_of(text, op);
    let result = type_of(text, op, Part::RESULT_TYPE, 0);
    let a = attributes::numbers_of(text, op, row.a);
    let b = attributes::numbers_of(text, op, row.b);
    let c = attributes::numbers_of(text, op, row.c);
    let choice = attributes::choice_of(text, op, Attributes::COMPARE_TYPE);
    let value = attributes::dense_type(text, op, Attributes::VALUE);
    let left = body_type(text, op, row, 0);
    let right = body_type(text, op, row, 1);
    Operation {
        arity,
        types,
        result,
        a,
        b,
        c,
        choice,
        value,
        left,
        right,
    }
}

// Whether there are so many result names and result types.
#[tactic(auto, unfolding(crate::specs::Typing::results_are))]
pub fn results_are(n: usize, op: Parts) -> bool
    ensures { result ≡ results_are n op }
{
    count_of(op, Part::RESULT_NAME) == n && count_of(op, Part::RESULT_TYPE) == n
}

// Whether there are as many bodies as the row says, of the form that a reduction asks.
#[tactic(auto, unfolding(crate::specs::Typing::bodies_fit))]
fn bodies_fit(text: &[u8], op: Parts, row: Row) -> bool
    ensures { result ≡ bodies_fit text.now op row }
{
    let n = count_of(op, Part::BODY_OPEN);
    if row.body {
        return n == 1 && body_fits(text, place_of(op, Part::BODY_OPEN, 0));
    }
    n == 0
}

fn in_table(text: &[u8], op: Parts) -> bool
    ensures { result ≡ in_table text.now op }
{
    row_named(text, place_of(op, Part::OP_NAME, 0)) < Ops::COUNT
}

#[tactic(auto, unfolding(crate::specs::Typing::typed_op))]
fn typed_op(text: &[u8], op: Parts, row: Row, o: Operation, values: Values, n: usize) -> bool
    requires { (n ≤ 264) × (o ≡ operation_of text.now op row) }
    ensures { result ≡ typed_op text.now op row values.list n }
{
    in_table(text, op)
        && operands_typed(text, op, values, n)
        && results_are(1, op)
        && attributes::attributes_fit(text, op, row)
        && taken_by_tables(row, o)
        && bodies_fit(text, op, row)
}

// Refusals 7 and 8 of an op.
pub fn op_judged(text: &[u8], op: Parts, values: Values, n: usize) -> Result<(), OpFault>
    requires { n ≤ 264 }
    ensures { judged_of result ≡ op_judged text.now op values.list n }
{
    let row = row_of(text, op);
    let o = operation_of(text, op, row);
    if !typed_op(text, op, row, o, values, n) {
        return Err(OpFault::Typing);
    }
    match broken_by(row.rule, o) {
        Some(c) => Err(OpFault::Constraint(c)),
        None => Ok(()),
    }
}
