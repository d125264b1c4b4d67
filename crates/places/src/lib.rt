// What stands at the places of a header, an op or a body.
#![tactic(auto)]

ghost use Rattle.std.specs.Prelude.{◌≡◌, ◌<◌};
ghost use Rattle.places.specs.Places.{count_of, place_of, blank_type, type_in, type_of_part};

use dimrules::TensorType;
use element::ElementType;
use limits::Limits;
use program::Parts;
use shape::Shape;
use types::tensors::type_at;

// The parts by number.
#[derive(Drop)]
pub struct Part {}

impl Part {
    pub const OP_NAME: usize = 0;

    pub const RESULT_NAME: usize = 1;

    pub const OPERAND_NAME: usize = 2;

    pub const OPERAND_TYPE: usize = 3;

    pub const RESULT_TYPE: usize = 4;

    pub const ATTRIBUTE_NAME: usize = 5;

    pub const BODY_OPEN: usize = 6;

    pub const INPUT_NAME: usize = 7;

    pub const INPUT_TYPE: usize = 8;

    pub const OUTPUT_TYPE: usize = 9;
}

// How many tokens part k has, 9 standing for more than eight.
#[tactic(auto, unfolding(crate::specs::Places::count_of))]
pub fn count_of(p: Parts, k: usize) -> usize
    requires { k < 11 }
    ensures { result ≡ count_of p k }
{
    p.count[k]
}

// The first byte of token j of part k.
#[tactic(auto, unfolding(crate::specs::Places::place_of))]
pub fn place_of(p: Parts, k: usize, j: usize) -> usize
    requires { (k < 11) × (j < 8) }
    ensures { result ≡ place_of p k j }
{
    p.at[Limits::OPERANDS * k + j]
}

pub fn blank_type() -> TensorType
    ensures { result ≡ blank_type }
{
    TensorType {
        element: ElementType::I1,
        shape: Shape {
            rank: 0,
            dims: [0; Limits::RANK],
        },
    }
}

// The type whose token starts at byte at.
#[tactic(auto, unfolding(crate::specs::Places::type_in))]
pub fn type_in(text: &[u8], at: usize) -> TensorType
    ensures { result ≡ type_in text.now at }
{
    match type_at(text, at) {
        Some(t) => {
            if t.passed.is_none() {
                TensorType {
                    element: t.element,
                    shape: t.shape,
                }
            } else {
                blank_type()
            }
        }
        None => blank_type(),
    }
}

// The type at token j of part k.
#[tactic(auto, unfolding(crate::specs::Places::type_of_part))]
pub fn type_of(text: &[u8], p: Parts, k: usize, j: usize) -> TensorType
    requires { (k < 11) × (j < 8) }
    ensures { result ≡ type_of_part text.now p k j }
{
    type_in(text, place_of(p, k, j))
}
