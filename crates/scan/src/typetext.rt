// 000's TensorType as one token, by the ends of its productions. A production that does not stand here ends at the end of the text.
ghost use Rattle.std.specs.Prelude.{◌≡◌, Some};
ghost use Rattle.scan.specs.TypeText.{byte_end, word_end, digits_end, size_next, size_number, shape_end, complex_end};
ghost use Rattle.scan.specs.TensorText.{element_end, type_close};

use crate::bytes::{byte_at, is_digit, is_letter, run_end, starts, tail};
use crate::quantized::quantized_end;

pub fn byte_end(text: &[u8], at: usize, b: u8) -> usize
    ensures { result ≡ byte_end b text.now at }
{
    if at < text.len() && text[at] == b {
        at + 1
    } else {
        text.len()
    }
}

// letter {letter | digit}
pub fn word_end(text: &[u8], at: usize) -> usize
    ensures { result ≡ word_end text.now at }
{
    if is_letter(byte_at(text, at)) {
        run_end(text, true, at)
    } else {
        text.len()
    }
}

// digit {digit}
pub fn digits_end(text: &[u8], at: usize) -> usize
    ensures { result ≡ digits_end text.now at }
{
    if is_digit(byte_at(text, at)) {
        run_end(text, false, at)
    } else {
        text.len()
    }
}

// What has been read of a dimension: nothing, or all of it with its 'x'; digits; a '?'.
#[derive(Clone, Copy)]
enum Dimension {
    Whole,
    Digits,
    Unknown,
}

// What has been read of a dimension after the byte `b`, if `b` goes on with it.
fn size_next(size: Dimension, b: u8) -> Option<Dimension>
    ensures { size_number result ≡ size_next (size_number (Some size)) b }
{
    match (size, b) {
        (Dimension::Whole | Dimension::Digits, b'0'..=b'9') => Some(Dimension::Digits),
        (Dimension::Whole, b'?') => Some(Dimension::Unknown),
        (Dimension::Digits | Dimension::Unknown, b'x') => Some(Dimension::Whole),
        _ => None,
    }
}

// Shape ::= {DimensionSize 'x'}.
pub fn shape_end(text: &[u8], at: usize) -> usize
    ensures { result ≡ shape_end text.now at }
{
    let mut end = at;
    let mut size = Dimension::Whole;
    for (i, b) in tail(text, at).iter().enumerate() {
        size = match size_next(size, *b) {
            Some(next) => next,
            None => return end,
        };
        if let Dimension::Whole = size {
            end = at + i + 1;
        }
    }
    end
}

// ComplexType ::= 'complex' '<' ComplexElementType '>', after '<'.
fn complex_end(text: &[u8], at: usize) -> usize
    ensures { result ≡ complex_end text.now at }
{
    byte_end(text, word_end(text, at), b'>')
}

// TensorElementType or QuantizedTensorElementType.
fn element_end(text: &[u8], at: usize) -> usize
    ensures { result ≡ element_end text.now at }
{
    if starts(text, at, b"complex<") {
        complex_end(text, at + 8)
    } else if starts(text, at, b"!quant.uniform<") {
        quantized_end(text, at + 15)
    } else {
        word_end(text, at)
    }
}

// Shape and element: the place of the type's '>', from after `tensor<`.
pub fn type_close(text: &[u8], at: usize) -> usize
    ensures { result ≡ type_close text.now at }
{
    element_end(text, shape_end(text, at))
}
