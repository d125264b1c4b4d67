// A text's tokens with their kinds and their roles in the grammar.
#![tactic(auto)]

ghost use Rattle.std.specs.Prelude.{◌≡◌, ◌<◌, ◌≤◌, length};
ghost use Rattle.syntax.specs.Kinds.{mark_kind, name_kind, word_kind, quoted_kind, kind_of};
ghost use Rattle.syntax.specs.Turns.{Turned};

use grammar::symbols::Kind;
use grammar::{Taken, advance};
use limits::Limits;
use scan::bytes::byte_at;
use text::names::is_word;
use text::{Token, token_at};

// For each token kind of the crate text 48 more than its kind here: `9` for a mark that the grammar has nowhere.
const MARKS: [u8; 256] = *b"99294597899999999999999999999999\
    99999999DE99L9999999999999M9HNI9\
    999999999999999999999999999J9K99\
    999999999999999999999999999F9G99\
    99999999999999999999999999999999\
    99999999999999999999999999999999\
    99999999999999999999999999999999\
    99999999999999999999999999999999";

fn mark_kind(kind: u8) -> u8
    ensures { result ≡ mark_kind kind }
{
    MARKS[kind as usize] - 48
}

#[tactic(auto, unfolding(crate::specs::Kinds::name_kind))]
fn name_kind(sigil: u8) -> u8
    ensures { result ≡ name_kind sigil }
{
    match sigil {
        b'%' => Kind::VALUE,
        b'@' => Kind::FUNCTION,
        _ => Kind::LABEL,
    }
}

#[tactic(auto, unfolding(crate::specs::Kinds::word_kind))]
fn word_kind(text: &[u8], start: usize, end: usize) -> u8
    ensures { result ≡ word_kind text.now start end }
{
    if is_word(text, start, end, b"array") {
        return Kind::ARRAY;
    }
    if is_word(text, start, end, b"dense") {
        return Kind::DENSE;
    }
    if is_word(text, start, end, b"true") || is_word(text, start, end, b"false") {
        return Kind::BOOLEAN;
    }
    if is_word(text, start, end, b"i64") {
        return Kind::I64;
    }
    if is_word(text, start, end, b"token") {
        return Kind::TOKEN;
    }
    if is_word(text, start, end, b"tuple") {
        return Kind::TUPLE;
    }
    Kind::WORD
}

#[tactic(auto, unfolding(crate::specs::Kinds::quoted_kind))]
fn quoted_kind(text: &[u8], start: usize, end: usize) -> u8
    ensures { result ≡ quoted_kind text.now start end }
{
    if is_word(text, start, end, b"\"func.return\"") {
        return Kind::FUNCRETURN;
    }
    if is_word(text, start, end, b"\"stablehlo.return\"") {
        return Kind::BODYRETURN;
    }
    Kind::QUOTED
}

// The kind of a token, for the grammar.
#[tactic(auto, unfolding(crate::specs::Kinds::kind_of, crate::specs::Kinds::token_kind))]
pub fn kind_of(text: &[u8], t: Token) -> u8
    ensures { result ≡ kind_of text.now t }
{
    match t.kind {
        0 => Kind::END,
        1 => word_kind(text, t.start, t.end),
        3 => name_kind(byte_at(text, t.start)),
        6 => quoted_kind(text, t.start, t.end),
        mark => mark_kind(mark),
    }
}

// A token, and what the grammar takes it for, none where it does not fit.
#[derive(Clone, Copy)]
pub struct Turn {
    pub token: Token,
    pub taken: Option<Taken>,
}

// Reads the token at or after byte at; what is expected stands in the array from top to its end, the next symbol first.
pub fn read_token(text: &[u8], at: usize, stack: &mut [u8], top: usize) -> Turn
    requires { (10 ≤ top) × (top ≤ length stack.old) }
    ensures { Turned text.now at stack.old top result stack.new }
{
    let t = token_at(text, at);
    Turn {
        token: t,
        taken: advance(stack, top, kind_of(text, t)),
    }
}

// The array that holds what is expected: ten symbols for each token of the longest text, for its end, and to start from.
#[derive(Drop)]
pub struct Stack {}

impl Stack {
    pub const SIZE: usize = 10 * (Limits::TEXT + 2);
}
