// An op judged by its row of the op table.
#![tactic(auto)]

ghost use Rattle.std.specs.Prelude.{IfSome, unwrap_or, ◌≡◌, ◌≤◌, ◌<◌};
ghost use Rattle.dimrules.specs.Count.{first_failing, everywhere};
ghost use Rattle.rules.specs.Constraint.{constraint_of};
ghost use Rattle.opcheck.specs.Judged.{taken_at, taken_by_tables, broken_by, ReadSizes};

use dimrules::{Numbers, TensorType};
use limits::Limits;
use optable::{Row, Rule};

// What is read of an op: the written types of its operands and of its result; its attributes a, b, c in the order of its row, where a number alone is the
// first of its list, and compare_type's choice, Choices::NONE where it is absent; a constant's type; the types of a body's two arguments.
#[derive(Clone, Copy)]
pub struct Operation {
    pub arity: usize,
    pub types: [TensorType; Limits::OPERANDS],
    pub result: TensorType,
    pub a: Numbers,
    pub b: Numbers,
    pub c: Numbers,
    pub choice: usize,
    pub value: TensorType,
    pub left: TensorType,
    pub right: TensorType,
}

// Whether the Inputs table takes operand j.
#[tactic(auto, unfolding(crate::specs::Judged::taken_at))]
fn taken_at(row: Row, o: Operation, j: usize) -> bool
    requires { j < 8 }
    ensures { result ≡ taken_at row o j }
{
    let x = o.types[j];
    optable::operand_taken(row, j, x.element, x.shape.rank)
}

// The first operand that the Inputs table does not take.
pub fn first_untaken(row: Row, o: Operation) -> Option<usize>
    requires { o.arity ≤ 8 }
    ensures place { unwrap_or result o.arity ≡ first_failing o.arity (taken_at row o) }
    ensures within { IfSome result (λ j. j < o.arity) }
{
    for j in 0..o.arity {
        if !taken_at(row, o, j) {
            return Some(j);
        }
    }
    None
}

// Whether the Inputs table takes each operand.
fn operands_taken(row: Row, o: Operation) -> bool
    requires { o.arity ≤ 8 }
    ensures { result ≡ everywhere o.arity (taken_at row o) }
{
    (0..o.arity).all(|j| taken_at(row, o, j))
}

// Whether the number of operands, their types and the result's are taken.
#[tactic(auto, unfolding(crate::specs::Judged::taken_by_tables))]
pub fn taken_by_tables(row: Row, o: Operation) -> bool
    requires { o.arity ≤ 8 }
    ensures { result ≡ taken_by_tables row o }
{
    row.least <= o.arity
        && o.arity <= row.most
        && operands_taken(row, o)
        && optable::result_taken(row, o.result.element)
}

// The number of the op's first broken constraint.
#[tactic(auto, unfolding(crate::specs::Judged::broken_by, crate::specs::Judged::checks_by))]
pub fn broken_by(rule: Rule, o: Operation) -> Option<usize>
    requires { ReadSizes o }
    ensures { result ≡ constraint_of (broken_by rule o) }
{
    let x = o.types[0];
    let y = o.types[1];
    let z = o.types[2];
    let number = dimrules::number_at(o.a, 0);
    match rule {
        Rule::SameTypes => rules::same_types_broken(o.types, o.arity, o.result),
        Rule::Abs => rules::abs_broken(x, o.result),
        Rule::Broadcast => rules::broadcast_broken(x, o.a, o.result),
        Rule::Clamp => rules::clamp_broken(x, y, z, o.result),
        Rule::Compare => rules::compare_broken(x, y, o.choice, o.result),
        Rule::Concatenate => rules::concatenate_broken(o.types, o.arity, number, o.result),
        Rule::Constant => rules::constant_broken(o.value, o.result),
        Rule::Convert => rules::convert_broken(x, o.result),
        Rule::DynamicSlice => rules::dynamic_slice_broken(o.types, o.arity, o.a, o.result),
        Rule::Iota => rules::iota_broken(number, o.result),
        Rule::Pad => rules::pad_broken(x, y, o.a, o.b, o.c, o.result),
        Rule::Reduce => rules::reduce_broken(x, y, o.left, o.right, o.a, o.result),
        Rule::Reshape => rules::reshape_broken(x, o.result),
        Rule::Reverse => rules::reverse_broken(x, o.a, o.result),
        Rule::Select => rules::select_broken(x, y, z, o.result),
        Rule::Slice => rules::slice_broken(x, o.a, o.b, o.c, o.result),
        Rule::Transpose => rules::transpose_broken(x, o.a, o.result),
    }
}
