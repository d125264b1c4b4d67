// 000's QuantizedTensorElementType, by the ends of its productions.
ghost use Rattle.std.specs.Prelude.{◌≡◌, length};
ghost use Rattle.scan.specs.Quantized.{sign_end, integer_end, fraction_end, scientific_end, float_end, colon_end, parameter_end, more_end, parameters_end, storage_end, quantized_end};

use crate::bytes::{byte_at, is_sign, run_end};
use crate::typetext::{byte_end, digits_end, word_end};

// SignPart ::= ['-' | '+'].
pub fn sign_end(text: &[u8], at: usize) -> usize
    ensures { result ≡ sign_end text.now at }
{
    if is_sign(byte_at(text, at)) {
        at + 1
    } else {
        at
    }
}

// IntegerLiteral ::= ['-' | '+'] DecimalDigits.
fn integer_end(text: &[u8], at: usize) -> usize
    ensures { result ≡ integer_end text.now at }
{
    digits_end(text, sign_end(text, at))
}

// FractionalPart ::= ['.' [DecimalDigits]].
fn fraction_end(text: &[u8], at: usize) -> usize
    ensures { result ≡ fraction_end text.now at }
{
    if byte_at(text, at) == b'.' {
        run_end(text, false, at + 1)
    } else {
        at
    }
}

// ScientificPart ::= [('e' | 'E') ['-' | '+'] DecimalDigits].
fn scientific_end(text: &[u8], at: usize) -> usize
    ensures { result ≡ scientific_end text.now at }
{
    if matches!(byte_at(text, at), b'e' | b'E') {
        integer_end(text, at + 1)
    } else {
        at
    }
}

// FloatLiteral ::= SignPart IntegerPart FractionalPart ScientificPart.
fn float_end(text: &[u8], at: usize) -> usize
    ensures { result ≡ float_end text.now at }
{
    scientific_end(text, fraction_end(text, integer_end(text, at)))
}

// [':' IntegerLiteral].
fn colon_end(text: &[u8], at: usize) -> usize
    ensures { result ≡ colon_end text.now at }
{
    if byte_at(text, at) == b':' {
        integer_end(text, at + 1)
    } else {
        at
    }
}

// QuantizationParameter ::= QuantizationScale [':' QuantizationZeroPoint].
fn parameter_end(text: &[u8], at: usize) -> usize
    ensures { result ≡ parameter_end text.now at }
{
    colon_end(text, float_end(text, at))
}

// {',' QuantizationParameter}: no more of them than the text has bytes.
fn more_end(text: &[u8], at: usize) -> usize
    ensures { result ≡ more_end (length text.now) text.now at }
{
    let mut i = at;
    for _ in 0..text.len() {
        if byte_at(text, i) != b',' {
            return i;
        }
        i = parameter_end(text, i + 1);
    }
    i
}

// QuantizationParameters ::= QuantizationParameter | '{' QuantizationParameter {',' QuantizationParameter} '}'.
fn parameters_end(text: &[u8], at: usize) -> usize
    ensures { result ≡ parameters_end text.now at }
{
    if byte_at(text, at) == b'{' {
        byte_end(text, more_end(text, parameter_end(text, at + 1)), b'}')
    } else {
        parameter_end(text, at)
    }
}

// ['<' QuantizationStorageMin ':' QuantizationStorageMax '>'].
fn storage_end(text: &[u8], at: usize) -> usize
    ensures { result ≡ storage_end text.now at }
{
    if byte_at(text, at) == b'<' {
        let colon = byte_end(text, integer_end(text, at + 1), b':');
        byte_end(text, integer_end(text, colon), b'>')
    } else {
        at
    }
}

// The whole of it, after `!quant.uniform<`.
pub fn quantized_end(text: &[u8], at: usize) -> usize
    ensures { result ≡ quantized_end text.now at }
{
    let storage = storage_end(text, word_end(text, at));
    let expressed = word_end(text, byte_end(text, storage, b':'));
    let comma = byte_end(text, colon_end(text, expressed), b',');
    byte_end(text, parameters_end(text, comma), b'>')
}
