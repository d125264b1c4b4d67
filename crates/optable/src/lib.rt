// The op table (01, "The text": "The op table has one row per op: its name, operand count, attributes and body"), attribute names and choices.
#![tactic(auto)]

ghost use Rattle.std.specs.Prelude.{◌≡◌, ◌+◌, ◌≤◌, ◌<◌, [], length, get_or, take, drop, Some, IfSome, unwrap_or};
ghost use Rattle.optable.specs.Names.{name_place};
ghost use Rattle.optable.specs.Table.{ops, choice_kinds, names, word_at, row_at, no_attribute, no_choice, kind_number, attribute_kind, choice_form, kind_said, direction_said, choice_kind, direction_at};
ghost use Rattle.optable.specs.Find.{stretch, find_op, find_attribute, find_choice_kind, find_choice, slot_in};
ghost use Rattle.optable.specs.Takes.{takes, operand_taken, result_taken};

use division::Division;
use element::ElementType;
use ops::Move;
use scalar::{Binary, Body, Direction, Unary};

// The element types that a table of 000 takes.
#[derive(Clone, Copy)]
pub enum Takes {
    Any,
    Integer,
    Signed,
    Boolean,
}

// Which of 000's lists of constraints an op has.
#[derive(Clone, Copy)]
pub enum Rule {
    SameTypes,
    Abs,
    Broadcast,
    Clamp,
    Compare,
    Concatenate,
    Constant,
    Convert,
    DynamicSlice,
    Iota,
    Pad,
    Reduce,
    Reshape,
    Reverse,
    Select,
    Slice,
    Transpose,
}

// What an op computes, its class for evaluation; compare's direction and reduce's body stand in the text.
#[derive(Clone, Copy)]
pub enum Class {
    Constant,
    Iota,
    Elementwise(Unary),
    Pairwise(Binary),
    Quotient(Division),
    Compare,
    Convert,
    Select,
    Clamp,
    Moved(Move),
    Pad,
    Concatenate,
    DynamicSlice,
    Reduce,
}

// What a choice says: a direction of compare, or a type of comparison.
#[derive(Clone, Copy)]
pub enum Choice {
    Compares(Direction),
    Signed,
    Unsigned,
}

// A row of the op table.
#[derive(Clone, Copy)]
pub struct Row {
    // Where its quoted name starts among the bytes of the names, and its length.
    pub at: usize,
    pub len: usize,
    // The least and the most operands.
    pub least: usize,
    pub most: usize,
    // The numbers of its attributes, Attributes::NONE for none; the first needed of them must stand, the others may be absent.
    pub needed: usize,
    pub a: usize,
    pub b: usize,
    pub c: usize,
    // Whether it has a body.
    pub body: bool,
    // What the first operand, the other operands and the result may be; whether the others must have rank 0.
    pub first: Takes,
    pub rest: Takes,
    pub scalars: bool,
    pub result: Takes,
    // Its constraints.
    pub rule: Rule,
    // What it computes.
    pub class: Class,
    // Where it may be the op of a reduction's body, the operation of such a body.
    pub reducer: Option<Body>,
}

// Where a name starts among the bytes of the names, and its length.
// Kept: beside a name of the crate text, which does not lie below this one.
#[derive(Clone, Copy)]
pub struct Word {
    pub at: usize,
    pub len: usize,
}

// The kinds of an attribute's value.
#[derive(Clone, Copy, PartialEq, Eq)]
pub enum ValueKind {
    Numbers,
    Number,
    Dense,
    Direction,
    CompareType,
}

// The ops of the table.
#[derive(Drop)]
pub struct Ops {}

impl Ops {
    pub const COUNT: usize = 34;
}

// The attributes by their places; in a row the place past the last one stands for none.
#[derive(Drop)]
pub struct Attributes {}

impl Attributes {
    pub const VALUE: usize = 0;

    pub const IOTA_DIMENSION: usize = 1;

    pub const BROADCAST_DIMENSIONS: usize = 2;

    pub const PERMUTATION: usize = 3;

    pub const START_INDICES: usize = 4;

    pub const LIMIT_INDICES: usize = 5;

    pub const STRIDES: usize = 6;

    pub const DIMENSION: usize = 7;

    pub const EDGE_PADDING_LOW: usize = 8;

    pub const EDGE_PADDING_HIGH: usize = 9;

    pub const INTERIOR_PADDING: usize = 10;

    pub const DIMENSIONS: usize = 11;

    pub const SLICE_SIZES: usize = 12;

    pub const COMPARISON_DIRECTION: usize = 13;

    pub const COMPARE_TYPE: usize = 14;

    pub const NONE: usize = 15;
}

// The first words of choices.
#[derive(Drop)]
pub struct ChoiceKinds {}

impl ChoiceKinds {
    pub const COUNT: usize = 2;
}

// The choices by their places; the place past the last one stands for an attribute that is absent.
#[derive(Drop)]
pub struct Choices {}

impl Choices {
    pub const SIGNED: usize = 6;

    pub const UNSIGNED: usize = 7;

    pub const NONE: usize = 8;
}

// The names, one after the other: ops, attributes, first words of choices, choices.
const NAMES: [u8; 925] =
    *b"\"stablehlo.abs\"\"stablehlo.add\"\"stablehlo.and\"\"stablehlo.broadcast_in_dim\"\"stablehlo.clamp\"\
    \"stablehlo.compare\"\"stablehlo.concatenate\"\"stablehlo.constant\"\"stablehlo.convert\"\
    \"stablehlo.count_leading_zeros\"\"stablehlo.divide\"\"stablehlo.dynamic_slice\"\"stablehlo.iota\"\
    \"stablehlo.maximum\"\"stablehlo.minimum\"\"stablehlo.multiply\"\"stablehlo.negate\"\
    \"stablehlo.not\"\"stablehlo.or\"\"stablehlo.pad\"\"stablehlo.popcnt\"\"stablehlo.reduce\"\
    \"stablehlo.remainder\"\"stablehlo.reshape\"\"stablehlo.reverse\"\"stablehlo.select\"\
    \"stablehlo.shift_left\"\"stablehlo.shift_right_arithmetic\"\"stablehlo.shift_right_logical\"\
    \"stablehlo.sign\"\"stablehlo.slice\"\"stablehlo.subtract\"\"stablehlo.transpose\"\"stablehlo.xor\"\
    valueiota_dimensionbroadcast_dimensionspermutationstart_indiceslimit_indicesstridesdimension\
    edge_padding_lowedge_padding_highinterior_paddingdimensionsslice_sizescomparison_direction\
    compare_typecomparison_directioncomparison_typeEQNEGEGTLELTSIGNEDUNSIGNED";

// What most ops on one operand have.
const UNARY: Row = Row {
    at: 0,
    len: 0,
    least: 1,
    most: 1,
    needed: 0,
    a: Attributes::NONE,
    b: Attributes::NONE,
    c: Attributes::NONE,
    body: false,
    first: Takes::Any,
    rest: Takes::Any,
    scalars: false,
    result: Takes::Any,
    rule: Rule::SameTypes,
    class: Class::Constant,
    reducer: None,
};

// And most on two; the ops on integers alone.
const BINARY: Row = Row {
    least: 2,
    most: 2,
    ..UNARY
};

const INTEGER_UNARY: Row = Row {
    first: Takes::Integer,
    rest: Takes::Integer,
    result: Takes::Integer,
    ..UNARY
};

const INTEGER_BINARY: Row = Row {
    first: Takes::Integer,
    rest: Takes::Integer,
    result: Takes::Integer,
    ..BINARY
};

static OPS: [Row; 34] = [
    // abs
    Row {
        at: 0,
        len: 15,
        first: Takes::Signed,
        rest: Takes::Signed,
        result: Takes::Signed,
        rule: Rule::Abs,
        class: Class::Elementwise(Unary::Abs),
        ..UNARY
    },
    // add
    Row {
        at: 15,
        len: 15,
        class: Class::Pairwise(Binary::Add),
        reducer: Some(Body::Add),
        ..BINARY
    },
    // and
    Row {
        at: 30,
        len: 15,
        class: Class::Pairwise(Binary::And),
        reducer: Some(Body::And),
        ..BINARY
    },
    // broadcast_in_dim
    Row {
        at: 45,
        len: 28,
        needed: 1,
        a: Attributes::BROADCAST_DIMENSIONS,
        rule: Rule::Broadcast,
        class: Class::Moved(Move::BroadcastInDim),
        ..UNARY
    },
    // clamp
    Row {
        at: 73,
        len: 17,
        least: 3,
        most: 3,
        rule: Rule::Clamp,
        class: Class::Clamp,
        ..UNARY
    },
    // compare
    Row {
        at: 90,
        len: 19,
        needed: 1,
        a: Attributes::COMPARISON_DIRECTION,
        b: Attributes::COMPARE_TYPE,
        result: Takes::Boolean,
        rule: Rule::Compare,
        class: Class::Compare,
        ..BINARY
    },
    // concatenate
    Row {
        at: 109,
        len: 23,
        least: 0,
        most: 8,
        needed: 1,
        a: Attributes::DIMENSION,
        rule: Rule::Concatenate,
        class: Class::Concatenate,
        ..UNARY
    },
    // constant
    Row {
        at: 132,
        len: 20,
        least: 0,
        most: 0,
        needed: 1,
        a: Attributes::VALUE,
        rule: Rule::Constant,
        ..UNARY
    },
    // convert
    Row {
        at: 152,
        len: 19,
        rule: Rule::Convert,
        class: Class::Convert,
        ..UNARY
    },
    // count_leading_zeros
    Row {
        at: 171,
        len: 31,
        class: Class::Elementwise(Unary::CountLeadingZeros),
        ..INTEGER_UNARY
    },
    // divide
    Row {
        at: 202,
        len: 18,
        class: Class::Quotient(Division::Divide),
        ..INTEGER_BINARY
    },
    // dynamic_slice
    Row {
        at: 220,
        len: 25,
        most: 8,
        needed: 1,
        a: Attributes::SLICE_SIZES,
        rest: Takes::Integer,
        scalars: true,
        rule: Rule::DynamicSlice,
        class: Class::DynamicSlice,
        ..UNARY
    },
    // iota
    Row {
        at: 245,
        len: 16,
        least: 0,
        most: 0,
        needed: 1,
        a: Attributes::IOTA_DIMENSION,
        result: Takes::Integer,
        rule: Rule::Iota,
        class: Class::Iota,
        ..UNARY
    },
    // maximum
    Row {
        at: 261,
        len: 19,
        class: Class::Pairwise(Binary::Maximum),
        reducer: Some(Body::Maximum),
        ..BINARY
    },
    // minimum
    Row {
        at: 280,
        len: 19,
        class: Class::Pairwise(Binary::Minimum),
        reducer: Some(Body::Minimum),
        ..BINARY
    },
    // multiply
    Row {
        at: 299,
        len: 20,
        class: Class::Pairwise(Binary::Multiply),
        reducer: Some(Body::Multiply),
        ..BINARY
    },
    // negate
    Row {
        at: 319,
        len: 18,
        class: Class::Elementwise(Unary::Negate),
        ..INTEGER_UNARY
    },
    // not
    Row {
        at: 337,
        len: 15,
        class: Class::Elementwise(Unary::Not),
        ..UNARY
    },
    // or
    Row {
        at: 352,
        len: 14,
        class: Class::Pairwise(Binary::Or),
        reducer: Some(Body::Or),
        ..BINARY
    },
    // pad
    Row {
        at: 366,
        len: 15,
        needed: 3,
        a: Attributes::EDGE_PADDING_LOW,
        b: Attributes::EDGE_PADDING_HIGH,
        c: Attributes::INTERIOR_PADDING,
        scalars: true,
        rule: Rule::Pad,
        class: Class::Pad,
        ..BINARY
    },
    // popcnt
    Row {
        at: 381,
        len: 18,
        class: Class::Elementwise(Unary::Popcnt),
        ..INTEGER_UNARY
    },
    // reduce
    Row {
        at: 399,
        len: 18,
        needed: 1,
        a: Attributes::DIMENSIONS,
        body: true,
        scalars: true,
        rule: Rule::Reduce,
        class: Class::Reduce,
        ..BINARY
    },
    // remainder
    Row {
        at: 417,
        len: 21,
        class: Class::Quotient(Division::Remainder),
        ..INTEGER_BINARY
    },
    // reshape
    Row {
        at: 438,
        len: 19,
        rule: Rule::Reshape,
        class: Class::Moved(Move::Reshape),
        ..UNARY
    },
    // reverse
    Row {
        at: 457,
        len: 19,
        needed: 1,
        a: Attributes::DIMENSIONS,
        rule: Rule::Reverse,
        class: Class::Moved(Move::Reverse),
        ..UNARY
    },
    // select
    Row {
        at: 476,
        len: 18,
        least: 3,
        most: 3,
        first: Takes::Boolean,
        rule: Rule::Select,
        class: Class::Select,
        ..UNARY
    },
    // shift_left
    Row {
        at: 494,
        len: 22,
        class: Class::Pairwise(Binary::ShiftLeft),
        ..INTEGER_BINARY
    },
    // shift_right_arithmetic
    Row {
        at: 516,
        len: 34,
        class: Class::Pairwise(Binary::ShiftRightArithmetic),
        ..INTEGER_BINARY
    },
    // shift_right_logical
    Row {
        at: 550,
        len: 31,
        class: Class::Pairwise(Binary::ShiftRightLogical),
        ..INTEGER_BINARY
    },
    // sign
    Row {
        at: 581,
        len: 16,
        first: Takes::Signed,
        rest: Takes::Signed,
        result: Takes::Signed,
        class: Class::Elementwise(Unary::Sign),
        ..UNARY
    },
    // slice
    Row {
        at: 597,
        len: 17,
        needed: 3,
        a: Attributes::START_INDICES,
        b: Attributes::LIMIT_INDICES,
        c: Attributes::STRIDES,
        rule: Rule::Slice,
        class: Class::Moved(Move::Slice),
        ..UNARY
    },
    // subtract
    Row {
        at: 614,
        len: 20,
        class: Class::Pairwise(Binary::Subtract),
        ..INTEGER_BINARY
    },
    // transpose
    Row {
        at: 634,
        len: 21,
        needed: 1,
        a: Attributes::PERMUTATION,
        rule: Rule::Transpose,
        class: Class::Moved(Move::Transpose),
        ..UNARY
    },
    // xor
    Row {
        at: 655,
        len: 15,
        class: Class::Pairwise(Binary::Xor),
        reducer: Some(Body::Xor),
        ..BINARY
    },
];

// What stands past the table's end.
const NO_ROW: Row = Row {
    least: 0,
    most: 0,
    a: 0,
    b: 0,
    c: 0,
    ..UNARY
};

// The places of the names of attributes, first words of choices and choices.
static OTHERS: [Word; 25] = [
    Word { at: 670, len: 5 }, // value
    Word { at: 675, len: 14 }, // iota_dimension
    Word { at: 689, len: 20 }, // broadcast_dimensions
    Word { at: 709, len: 11 }, // permutation
    Word { at: 720, len: 13 }, // start_indices
    Word { at: 733, len: 13 }, // limit_indices
    Word { at: 746, len: 7 }, // strides
    Word { at: 753, len: 9 }, // dimension
    Word { at: 762, len: 16 }, // edge_padding_low
    Word { at: 778, len: 17 }, // edge_padding_high
    Word { at: 795, len: 16 }, // interior_padding
    Word { at: 811, len: 10 }, // dimensions
    Word { at: 821, len: 11 }, // slice_sizes
    Word { at: 832, len: 20 }, // comparison_direction
    Word { at: 852, len: 12 }, // compare_type
    Word { at: 864, len: 20 }, // comparison_direction
    Word { at: 884, len: 15 }, // comparison_type
    Word { at: 899, len: 2 }, // EQ
    Word { at: 901, len: 2 }, // NE
    Word { at: 903, len: 2 }, // GE
    Word { at: 905, len: 2 }, // GT
    Word { at: 907, len: 2 }, // LE
    Word { at: 909, len: 2 }, // LT
    Word { at: 911, len: 6 }, // SIGNED
    Word { at: 917, len: 8 }, // UNSIGNED
];

// The kinds of the attributes and of the first words of choices.
const ATTRIBUTE_KINDS: [ValueKind; 15] = [
    ValueKind::Dense,
    ValueKind::Number,
    ValueKind::Numbers,
    ValueKind::Numbers,
    ValueKind::Numbers,
    ValueKind::Numbers,
    ValueKind::Numbers,
    ValueKind::Number,
    ValueKind::Numbers,
    ValueKind::Numbers,
    ValueKind::Numbers,
    ValueKind::Numbers,
    ValueKind::Numbers,
    ValueKind::Direction,
    ValueKind::CompareType,
];

const CHOICE_KINDS: [ValueKind; 2] = [ValueKind::Direction, ValueKind::CompareType];

// What the choices say.
const CHOICES: [Choice; 8] = [
    Choice::Compares(Direction::Eq),
    Choice::Compares(Direction::Ne),
    Choice::Compares(Direction::Ge),
    Choice::Compares(Direction::Gt),
    Choice::Compares(Direction::Le),
    Choice::Compares(Direction::Lt),
    Choice::Signed,
    Choice::Unsigned,
];

// The row of op i; past the last one a row without a name.
// Kept: a row there too, since the definition `row_at` has one.
pub fn op_row(i: usize) -> Row
    ensures { result ≡ row_at i }
{
    if i < Ops::COUNT { OPS[i] } else { NO_ROW }
}

// The place of name i: the ops' names, then the others.
pub fn word_at(i: usize) -> Word
    requires { i < length names }
    ensures { result ≡ word_at i }
{
    if i < Ops::COUNT {
        let row = op_row(i);
        return Word {
            at: row.at,
            len: row.len,
        };
    }
    OTHERS[i - Ops::COUNT]
}

// Name i.
fn name_at(i: usize) -> &'static [u8]
    requires { i < length names }
    ensures { result.now ≡ get_or names i [] }
{
    let word = word_at(i);
    &NAMES[word.at..word.at + word.len]
}

// The place of the bytes among count names from first on.
fn place_of(bytes: &[u8], first: usize, count: usize) -> Option<usize>
    requires { first + count ≤ length names }
    ensures found { unwrap_or result count ≡ name_place (take count (drop first names)) bytes.now }
    ensures within { IfSome result (λ k. k < count) }
{
    for k in 0..count {
        if name_at(first + k) == bytes {
            return Some(k);
        }
    }
    None
}

// The same, of the bytes of the text from start up to end.
fn find(text: &[u8], start: usize, end: usize, first: usize, count: usize) -> Option<usize>
    requires { first + count ≤ length names }
    ensures found { unwrap_or result count ≡ name_place (take count (drop first names)) (stretch text.now start end) }
    ensures within { IfSome result (λ k. k < count) }
{
    let stop = end.min(text.len());
    place_of(&text[start.min(stop)..stop], first, count)
}

// The op whose quoted name stands in the text from start up to end.
pub fn find_op(text: &[u8], start: usize, end: usize) -> Option<usize>
    ensures found { unwrap_or result (length ops) ≡ find_op text.now start end }
    ensures within { IfSome result (λ i. i < length ops) }
{
    find(text, start, end, 0, Ops::COUNT)
}

// The attribute.
pub fn find_attribute(text: &[u8], start: usize, end: usize) -> Option<usize>
    ensures found { unwrap_or result no_attribute ≡ find_attribute text.now start end }
    ensures within { IfSome result (λ k. k < no_attribute) }
{
    find(text, start, end, Ops::COUNT, Attributes::NONE)
}

// The first word of a choice: comparison_direction, comparison_type.
pub fn find_choice_kind(text: &[u8], start: usize, end: usize) -> Option<usize>
    ensures found { unwrap_or result (length choice_kinds) ≡ find_choice_kind text.now start end }
    ensures within { IfSome result (λ k. k < length choice_kinds) }
{
    let first = Ops::COUNT + Attributes::NONE;
    find(text, start, end, first, ChoiceKinds::COUNT)
}

// The choice: EQ, NE, GE, GT, LE, LT, SIGNED, UNSIGNED.
pub fn find_choice(text: &[u8], start: usize, end: usize) -> Option<usize>
    ensures found { unwrap_or result no_choice ≡ find_choice text.now start end }
    ensures within { IfSome result (λ k. k < no_choice) }
{
    let first = Ops::COUNT + Attributes::NONE + ChoiceKinds::COUNT;
    find(text, start, end, first, Choices::NONE)
}

// The kind of attribute k.
pub fn attribute_kind(k: usize) -> Option<ValueKind>
    ensures { kind_number result ≡ attribute_kind k }
{
    ATTRIBUTE_KINDS.get(k).copied()
}

// The kind of the choices that first word k begins.
pub fn choice_form(k: usize) -> Option<ValueKind>
    ensures { kind_number result ≡ choice_form k }
{
    CHOICE_KINDS.get(k).copied()
}

fn kind_said(c: Choice) -> ValueKind
    ensures { kind_number (Some result) ≡ kind_said c }
{
    match c {
        Choice::Compares(_) => ValueKind::Direction,
        Choice::Signed | Choice::Unsigned => ValueKind::CompareType,
    }
}

fn direction_said(c: Choice) -> Direction
    ensures { result ≡ direction_said c }
{
    match c {
        Choice::Compares(d) => d,
        Choice::Signed | Choice::Unsigned => Direction::Eq,
    }
}

// The kind of choice k.
pub fn choice_kind(k: usize) -> Option<ValueKind>
    ensures { kind_number result ≡ choice_kind k }
{
    if k < Choices::NONE {
        return Some(kind_said(CHOICES[k]));
    }
    None
}

// The comparison_direction of choice k; EQ where it is none.
// Kept: EQ there, since the definition `direction_at` says it.
pub fn direction_at(k: usize) -> Direction
    ensures { result ≡ direction_at k }
{
    if k < Choices::NONE {
        return direction_said(CHOICES[k]);
    }
    Direction::Eq
}

// The place of attribute k among those of the row; none where it is foreign to the op.
#[tactic(auto, unfolding(crate::specs::Find::slot_in, lists::specs::Lists::first_where))]
pub fn attribute_slot(r: Row, k: usize) -> Option<usize>
    ensures found { unwrap_or result 3 ≡ slot_in r k }
    ensures within { IfSome result (λ s. s < 3) }
{
    [r.a, r.b, r.c].iter().position(|&a| a == k)
}

// Whether a table takes an element type.
#[tactic(auto, unfolding(crate::specs::Takes::takes))]
fn is_taken(t: Takes, e: ElementType) -> bool
    ensures { result ≡ takes t e }
{
    match t {
        Takes::Any => true,
        Takes::Integer => !e.is_bool(),
        Takes::Signed => e.is_signed(),
        Takes::Boolean => e.is_bool(),
    }
}

// Whether the Inputs table takes a tensor of this element type and rank as operand j.
#[tactic(auto, unfolding(crate::specs::Takes::operand_taken))]
pub fn operand_taken(r: Row, j: usize, e: ElementType, rank: usize) -> bool
    ensures { result ≡ operand_taken r j e rank }
{
    if j == 0 {
        return is_taken(r.first, e);
    }
    is_taken(r.rest, e) && (!r.scalars || rank == 0)
}

// Whether the Outputs table takes this element type as the result.
#[tactic(auto, unfolding(crate::specs::Takes::result_taken))]
pub fn result_taken(r: Row, e: ElementType) -> bool
    ensures { result ≡ result_taken r e }
{
    is_taken(r.result, e)
}
