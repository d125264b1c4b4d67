// What a tensor type token says: its element type, its shape, and which size it passes.
ghost use Rattle.std.specs.Prelude.{◌≡◌, ◌+◌, ◌-◌, ◌*◌, ◌≤◌, min, length, get_or, ltb, Some};
ghost use Rattle.lists.specs.Lists.{pick};
ghost use Rattle.shape.specs.Index.{volume};
ghost use Rattle.shape.specs.Dims.{dims_of};
ghost use Rattle.types.specs.Tensors.{width_named, element_named, named_of, dimensions_from, byte_count, first_six, typed, passed_number, type_read, type_after, type_of};

use crate::numbers::digit_of;
use element::ElementType;
use limits::Limits;
use scan::bytes::starts;
use scan::typetext::{shape_end, type_close};
use shape::{Shape, volume_of};
use text::names::is_word;

// The first of sizes 1 and 2 that a tensor type passes.
#[derive(Clone, Copy)]
pub enum Passed {
    Rank,
    Volume,
}

// A tensor type that is in 01: its element type, its shape, of which `dims` has the first six, and the size that it passes.
#[derive(Clone, Copy)]
pub struct WrittenType {
    pub element: ElementType,
    pub shape: Shape,
    pub passed: Option<Passed>,
}

// One of four types, by its width.
#[tactic(auto, unfolding(crate::specs::Tensors::width_named))]
fn width_named(
    t8: ElementType,
    t16: ElementType,
    t32: ElementType,
    t64: ElementType,
    text: &[u8],
    start: usize,
    end: usize,
) -> Option<ElementType>
    ensures { named_of result ≡ width_named t8 t16 t32 t64 text.now start end }
{
    if is_word(text, start, end, b"8") {
        Some(t8)
    } else if is_word(text, start, end, b"16") {
        Some(t16)
    } else if is_word(text, start, end, b"32") {
        Some(t32)
    } else if is_word(text, start, end, b"64") {
        Some(t64)
    } else {
        None
    }
}

#[tactic(auto, unfolding(crate::specs::Tensors::element_named))]
fn element_named(text: &[u8], start: usize, end: usize) -> Option<ElementType>
    ensures { named_of result ≡ element_named text.now start end }
{
    if is_word(text, start, end, b"i1") {
        Some(ElementType::I1)
    } else if starts(text, start, b"i") {
        width_named(
            ElementType::I8,
            ElementType::I16,
            ElementType::I32,
            ElementType::I64,
            text,
            start + 1,
            end,
        )
    } else if starts(text, start, b"si") {
        width_named(
            ElementType::I8,
            ElementType::I16,
            ElementType::I32,
            ElementType::I64,
            text,
            start + 2,
            end,
        )
    } else if starts(text, start, b"ui") {
        width_named(
            ElementType::U8,
            ElementType::U16,
            ElementType::U32,
            ElementType::U64,
            text,
            start + 2,
            end,
        )
    } else {
        None
    }
}

// The digits of v and one more, 4,097 for all above 4,096.
fn with_digit(v: usize, b: u8) -> usize
    requires { v ≤ 4097 }
    ensures { result ≡ min (v * 10 + (b - 48)) 4097 }
{
    (v * 10 + usize::from(digit_of(b))).min(Limits::PAST_VOLUME)
}

// Dimension k of a shape's text, 4,097 for all above 4,096, 0 where there is none.
fn dimension(bytes: &[u8], k: usize) -> usize
    ensures { result ≡ min (get_or (dimensions_from 0 bytes.now) k 0) 4097 }
{
    let mut left = k;
    let mut v = 0;
    for b in bytes {
        if *b != b'x' {
            v = with_digit(v, *b);
        } else if left == 0 {
            return v;
        } else {
            left -= 1;
            v = 0;
        }
    }
    0
}

// The number of dimensions of a shape's text.
fn rank_of(bytes: &[u8]) -> usize
    ensures { result ≡ byte_count 120 bytes.now }
{
    bytes.iter().filter(|b| **b == b'x').count()
}

// The first six dimensions of a shape's text, 4,097 for all above 4,096, 0 where there are fewer.
fn dimensions(bytes: &[u8]) -> [usize; Limits::RANK]
    ensures { result ≡ first_six (dimensions_from 0 bytes.now) }
{
    let mut dims = [0; Limits::RANK];
    for (k, d) in dims.iter_mut().enumerate() {
        *d = dimension(bytes, k);
    }
    dims
}

// The first of sizes 1 and 2 that a shape passes.
fn size_passed(s: Shape) -> Option<Passed>
    ensures { passed_number result ≡ pick (ltb 6 s.rank) 1 (pick (ltb 4096 (volume (dims_of s))) 2 0) }
{
    if Limits::RANK < s.rank {
        Some(Passed::Rank)
    } else if Limits::VOLUME < volume_of(s) {
        Some(Passed::Volume)
    } else {
        None
    }
}

// The type of this element and of the shape that the bytes say.
fn typed_by(bytes: &[u8], element: ElementType) -> WrittenType
    ensures { type_read (Some result) ≡ typed element (dimensions_from 0 bytes.now) }
{
    let shape = Shape {
        rank: rank_of(bytes),
        dims: dimensions(bytes),
    };
    WrittenType {
        element,
        shape,
        passed: size_passed(shape),
    }
}

// The type whose token's `tensor<` ends at `at`, if it is in 01.
fn type_after(text: &[u8], at: usize) -> Option<WrittenType>
    requires { at ≤ length text.now }
    ensures { type_read result ≡ type_after text.now at }
{
    let end = shape_end(text, at);
    let element = element_named(text, end, type_close(text, at))?;
    let bytes = &text[at..end];
    if bytes.contains(&b'?') {
        None
    } else {
        Some(typed_by(bytes, element))
    }
}

// The type whose token starts at `start`, if it is in 01.
#[tactic(auto, unfolding(crate::specs::Tensors::type_of))]
pub fn type_at(text: &[u8], start: usize) -> Option<WrittenType>
    ensures { type_read result ≡ type_of text.now start }
{
    if starts(text, start, b"tensor<") {
        type_after(text, start + 7)
    } else {
        None
    }
}
