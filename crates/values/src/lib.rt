// The values of a program: its inputs, then each op's result.
#![tactic(auto)]

ghost use Rattle.std.specs.Prelude.{◌≡◌, ◌+◌, ◌<◌, ltb};
ghost use Rattle.lists.specs.Lists.{pick};
ghost use Rattle.values.specs.Values.{no_value, input_value, result_value, inputs_of, ops_of, value_at, values_in, values_of};

use dimrules::TensorType;
use limits::Limits;
use places::{Part, blank_type, count_of, place_of, type_of};
use program::{Parts, Program, op_at, program_of};

// The first byte of a value's name, and its type.
#[derive(Clone, Copy)]
pub struct Value {
    pub name: usize,
    pub ty: TensorType,
}

// How many values are inputs, how many there are, and each of them.
#[derive(Clone, Copy)]
pub struct Values {
    pub inputs: usize,
    pub count: usize,
    pub list: [Value; Limits::VALUES],
}

fn no_value() -> Value
    ensures { result ≡ no_value }
{
    Value {
        name: 0,
        ty: blank_type(),
    }
}

// Input i of a header.
#[tactic(auto, unfolding(crate::specs::Values::input_value))]
pub fn input_value(text: &[u8], header: Parts, i: usize) -> Value
    requires { i < 8 }
    ensures { result ≡ input_value text.now header i }
{
    let name = place_of(header, Part::INPUT_NAME, i);
    let ty = type_of(text, header, Part::INPUT_TYPE, i);
    Value { name, ty }
}

// The result of an op.
#[tactic(auto, unfolding(crate::specs::Values::result_value))]
pub fn result_value(text: &[u8], op: Parts) -> Value
    ensures { result ≡ result_value text.now op }
{
    let name = place_of(op, Part::RESULT_NAME, 0);
    let ty = type_of(text, op, Part::RESULT_TYPE, 0);
    Value { name, ty }
}

#[tactic(auto, unfolding(crate::specs::Values::inputs_of))]
pub fn inputs_of(p: Program) -> usize
    ensures { result ≡ inputs_of p }
{
    count_of(p.header, Part::INPUT_NAME).min(Limits::OPERANDS)
}

// How many ops there are, the return not counted.
#[tactic(auto, unfolding(crate::specs::Values::ops_of))]
pub fn ops_of(p: Program) -> usize
    ensures { result ≡ ops_of p }
{
    p.count.saturating_sub(1).min(Limits::OPS)
}

pub fn value_at(text: &[u8], p: Program, i: usize) -> Value
    requires { i < inputs_of p + ops_of p }
    ensures { result ≡ value_at text.now p i }
{
    let n = inputs_of(p);
    if i < n {
        return input_value(text, p.header, i);
    }
    result_value(text, op_at(text, p.ops[i - n]))
}

fn value_or_none(text: &[u8], p: Program, i: usize) -> Value
    ensures { result ≡ pick (ltb i (inputs_of p + ops_of p)) (value_at text.now p i) no_value }
{
    if i < inputs_of(p) + ops_of(p) {
        return value_at(text, p, i);
    }
    no_value()
}

pub fn values_in(text: &[u8], p: Program) -> Values
    ensures { result ≡ values_in text.now p }
{
    let mut list = [no_value(); Limits::VALUES];
    for i in 0..Limits::VALUES {
        list[i] = value_or_none(text, p, i);
    }
    let inputs = inputs_of(p);
    Values {
        inputs,
        count: inputs + ops_of(p),
        list,
    }
}

// The values of a text's program.
#[tactic(auto, unfolding(crate::specs::Values::values_of))]
pub fn values_of(text: &[u8]) -> Values
    ensures { result ≡ values_of text.now }
{
    values_in(text, program_of(text))
}
