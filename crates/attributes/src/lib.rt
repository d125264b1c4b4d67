// The attributes of an op against its row of the op table, and their values.
#![tactic(auto)]

ghost use Rattle.std.specs.Prelude.{◌≡◌, ◌<◌, Some, IfSome, unwrap_or};
ghost use Rattle.optable.specs.Table.{kind_number};
ghost use Rattle.dimrules.specs.Count.{everywhere};
ghost use Rattle.attributes.specs.Attributes.{attributes_of, attribute_of, stands_at, stands as «stands-in», choice_fits, dense_fits, kind_fits, attribute_fits, needed_at, attributes_fit, name_of, numbers_by, attribute_numbers, choice_of, dense_type};

use attribute::{choice_at, dense_at, form_at, number_at, numbers_at};
use dense::dense_fits;
use dimrules::{Numbers, TensorType};
use limits::Limits;
use optable::{
    Attributes, Choices, Row, ValueKind, attribute_kind, attribute_slot, choice_kind,
    find_attribute,
};
use places::{Part, blank_type, count_of, place_of, type_in};
use program::Parts;
use text::token_at;

const NO_NUMBERS: Numbers = Numbers {
    count: 0,
    list: [0; Limits::LIST],
};

// How many attributes are told apart, at most eight.
#[tactic(auto, unfolding(crate::specs::Attributes::attributes_of))]
fn attributes_of(op: Parts) -> usize
    ensures { result ≡ attributes_of op }
{
    count_of(op, Part::ATTRIBUTE_NAME).min(8)
}

// Attribute j: its number in the op table.
// Kept: a number, Attributes::NONE for none, since the contract of `name_of` finds such an attribute at k = Attributes::NONE.
#[tactic(auto, unfolding(crate::specs::Attributes::attribute_of))]
fn attribute_of(text: &[u8], op: Parts, j: usize) -> usize
    requires { j < 8 }
    ensures { result ≡ attribute_of text.now op j }
{
    let at = place_of(op, Part::ATTRIBUTE_NAME, j);
    find_attribute(text, at, token_at(text, at).end).unwrap_or(Attributes::NONE)
}

// Where attribute k of the op table first stands among the op's attributes.
fn stands_at(text: &[u8], op: Parts, k: usize) -> Option<usize>
    ensures found { unwrap_or result (attributes_of op) ≡ stands_at text.now op k }
    ensures within { IfSome result (λ j. j < attributes_of op) }
{
    for j in 0..attributes_of(op) {
        if attribute_of(text, op, j) == k {
            return Some(j);
        }
    }
    None
}

// Attribute k of the op table is one of the op's.
fn stands(text: &[u8], op: Parts, k: usize) -> bool
    ensures { result ≡ «stands-in» text.now op k }
{
    stands_at(text, op, k).is_some()
}

// A choice of its own kind.
fn choice_fits(text: &[u8], name: usize, kind: ValueKind) -> bool
    ensures { result ≡ choice_fits text.now name (kind_number (Some kind)) }
{
    let choice = choice_at(text, name).unwrap_or(Choices::NONE);
    choice_kind(choice) == Some(kind)
}

// A dense value of the sizes, kind and range of its type.
fn dense_value_fits(text: &[u8], name: usize) -> bool
    ensures { result ≡ dense_fits text.now name }
{
    let c = dense_at(text, name);
    let t = type_in(text, c.ty);
    dense_fits(text, c.literal, t.element, t.shape)
}

// The value of the attribute whose name is at a byte is of this kind.
fn kind_fits(text: &[u8], name: usize, kind: ValueKind) -> bool
    ensures { result ≡ kind_fits text.now name (kind_number (Some kind)) }
{
    if form_at(text, name) != Some(kind) {
        return false;
    }
    match kind {
        ValueKind::Dense => dense_value_fits(text, name),
        ValueKind::Direction => choice_fits(text, name, kind),
        ValueKind::CompareType => choice_fits(text, name, kind),
        ValueKind::Numbers => true,
        ValueKind::Number => true,
    }
}

// Attribute j is neither foreign nor doubled nor of the wrong kind.
fn attribute_fits(text: &[u8], op: Parts, row: Row, j: usize) -> bool
    requires { j < 8 }
    ensures { result ≡ attribute_fits text.now op row j }
{
    let k = attribute_of(text, op, j);
    let Some(kind) = attribute_kind(k) else {
        return false;
    };
    if attribute_slot(row, k).is_none() {
        return false;
    }
    if stands_at(text, op, k).unwrap_or(attributes_of(op)) != j {
        return false;
    }
    kind_fits(text, place_of(op, Part::ATTRIBUTE_NAME, j), kind)
}

// Each attribute fits the row.
fn each_fits(text: &[u8], op: Parts, row: Row) -> bool
    ensures { result ≡ everywhere (attributes_of op) (attribute_fits text.now op row) }
{
    for j in 0..attributes_of(op) {
        if !attribute_fits(text, op, row, j) {
            return false;
        }
    }
    true
}

// The number of the attribute that must stand at place s of the row.
#[tactic(auto, unfolding(crate::specs::Attributes::needed_at))]
fn needed_at(row: Row, s: usize) -> usize
    ensures { result ≡ needed_at row s }
{
    match s {
        0 => row.a,
        1 => row.b,
        2 => row.c,
        _ => Attributes::NONE,
    }
}

// Each attribute of the row that must stand does.
fn none_missing(text: &[u8], op: Parts, row: Row) -> bool
    ensures { result ≡ everywhere row.needed (λ s. «stands-in» text.now op (needed_at row s)) }
{
    for s in 0..row.needed {
        if !stands(text, op, needed_at(row, s)) {
            return false;
        }
    }
    true
}

// The attributes are those of the row: each fits, and none is missing that must stand.
#[tactic(auto, unfolding(crate::specs::Attributes::attributes_fit))]
pub fn attributes_fit(text: &[u8], op: Parts, row: Row) -> bool
    ensures { result ≡ attributes_fit text.now op row }
{
    count_of(op, Part::ATTRIBUTE_NAME) < 9
        && each_fits(text, op, row)
        && none_missing(text, op, row)
}

// The byte of attribute k's name; 0 where it does not stand.
// Kept: 0, since the contract of kinds::literal_of reads at byte 0 where no value stands.
pub fn name_of(text: &[u8], op: Parts, k: usize) -> usize
    ensures { result ≡ name_of text.now op k }
{
    match stands_at(text, op, k) {
        Some(j) => place_of(op, Part::ATTRIBUTE_NAME, j),
        None => 0,
    }
}

// The numbers of the attribute whose name is at a byte: a list, or a number alone as the first of its list.
#[tactic(auto, unfolding(crate::specs::Attributes::numbers_by))]
fn numbers_by(text: &[u8], name: usize, kind: Option<ValueKind>) -> Numbers
    ensures { result ≡ numbers_by text.now name (kind_number kind) }
{
    match kind {
        Some(ValueKind::Numbers) => numbers_at(text, name),
        Some(ValueKind::Number) => {
            let mut list = [0; Limits::LIST];
            list[0] = number_at(text, name);
            Numbers { count: 1, list }
        }
        _ => NO_NUMBERS,
    }
}

// The numbers of attribute k; none where it does not stand.
pub fn numbers_of(text: &[u8], op: Parts, k: usize) -> Numbers
    ensures { result ≡ attribute_numbers text.now op k }
{
    if !stands(text, op, k) {
        return NO_NUMBERS;
    }
    numbers_by(text, name_of(text, op, k), attribute_kind(k))
}

// The choice of attribute k; Choices::NONE where it does not stand.
// Kept: a number, since the op's input of opcheck (`Operation`) holds it as one.
pub fn choice_of(text: &[u8], op: Parts, k: usize) -> usize
    ensures { result ≡ choice_of text.now op k }
{
    if !stands(text, op, k) {
        return Choices::NONE;
    }
    choice_at(text, name_of(text, op, k)).unwrap_or(Choices::NONE)
}

// The type written after the dense value of attribute k; tensor<i1> where it does not stand.
pub fn dense_type(text: &[u8], op: Parts, k: usize) -> TensorType
    ensures { result ≡ dense_type text.now op k }
{
    if !stands(text, op, k) {
        return blank_type();
    }
    type_in(text, dense_at(text, name_of(text, op, k)).ty)
}
