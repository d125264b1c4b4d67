// The value of an attribute, by the place of the attribute's name in the text.
#![tactic(auto)]

ghost use Rattle.std.specs.Prelude.{◌≡◌, ◌<◌, length, IfSome, unwrap_or};
ghost use Rattle.optable.specs.Table.{choice_kinds, no_choice, kind_number};
ghost use Rattle.attribute.specs.Attribute.{token_after, word_form, choice_at, form_at, pattern_at, number_at, none_read, with_number, goes_on, numbers_from, numbers_at, ends_literal, close_from, dense_tokens};

use cursor::{Cursor, after, past, token};
use dimrules::Numbers;
use limits::Limits;
use optable::{ValueKind, choice_form, find_choice, find_choice_kind};
use text::Token;
use text::names::is_word;
use types::numbers::pattern_in;

// Where the literal of a constant and its type start.
#[derive(Clone, Copy)]
pub struct Constant {
    pub literal: usize,
    pub ty: usize,
}

const NO_NUMBERS: Numbers = Numbers {
    count: 0,
    list: [0; Limits::LIST],
};

// The token that comes n tokens after the one at or after a cursor.
fn token_after(text: &[u8], from: Cursor, n: usize) -> Token
    ensures { result ≡ token_after n text.now from.at }
{
    let mut c = from;
    for _ in 0..n {
        c = past(text, c);
    }
    token(text, c)
}

fn word_form(text: &[u8], t: Token) -> Option<ValueKind>
    ensures { kind_number result ≡ word_form text.now t }
{
    if is_word(text, t.start, t.end, b"array") {
        return Some(ValueKind::Numbers);
    }
    if is_word(text, t.start, t.end, b"dense") {
        return Some(ValueKind::Dense);
    }
    None
}

// The row of a choice's first word in the table of ops.
pub fn choice_kind_at(text: &[u8], name: usize) -> Option<usize>
    ensures found { unwrap_or result (length choice_kinds) ≡ (choice_at text.now name).kind }
    ensures within { IfSome result (λ k. k < length choice_kinds) }
{
    let word = token_after(text, Cursor { at: name }, 4);
    find_choice_kind(text, word.start, word.end)
}

// The row of the choice.
pub fn choice_at(text: &[u8], name: usize) -> Option<usize>
    ensures found { unwrap_or result no_choice ≡ (choice_at text.now name).choice }
    ensures within { IfSome result (λ k. k < no_choice) }
{
    let choice = token_after(text, Cursor { at: name }, 5);
    find_choice(text, choice.start, choice.end)
}

// The kind of the attribute's value, as in the table of ops.
pub fn form_at(text: &[u8], name: usize) -> Option<ValueKind>
    ensures { kind_number result ≡ form_at text.now name }
{
    let t = token_after(text, Cursor { at: name }, 2);
    match t.kind {
        2 => Some(ValueKind::Number),
        5 => choice_form(choice_kind_at(text, name)?),
        1 => word_form(text, t),
        _ => None,
    }
}

// The number whose token starts here, as a signed 64-bit pattern; 0 where it does not fit.
fn pattern_at(text: &[u8], start: usize) -> usize
    ensures { result ≡ pattern_at text.now start }
{
    pattern_in(text, start).unwrap_or(0) as usize
}

pub fn number_at(text: &[u8], name: usize) -> usize
    ensures { result ≡ number_at text.now name }
{
    pattern_at(text, token_after(text, Cursor { at: name }, 2).start)
}

// One number more, of at most six.
fn with_number(ns: Numbers, v: usize) -> Numbers
    ensures { result ≡ with_number ns v }
{
    let mut next = ns;
    if next.count < Limits::LIST {
        next.list[next.count] = v;
        next.count += 1;
    }
    next
}

#[tactic(auto, unfolding(crate::specs::Attribute::goes_on))]
fn goes_on(kind: u8) -> bool
    ensures { result ≡ goes_on kind }
{
    kind == b':' || kind == b','
}

// The numbers from a cursor on.
fn numbers_from(text: &[u8], from: Cursor) -> Numbers
    ensures { result ≡ numbers_from 6 none_read text.now from.at }
{
    let mut ns = NO_NUMBERS;
    let mut c = from;
    for _ in 0..Limits::LIST {
        let mark = token(text, c);
        if !goes_on(mark.kind) {
            return ns;
        }
        let number = token(text, after(mark));
        ns = with_number(ns, pattern_at(text, number.start));
        c = after(number);
    }
    ns
}

pub fn numbers_at(text: &[u8], name: usize) -> Numbers
    ensures { result ≡ numbers_at text.now name }
{
    numbers_from(text, after(token_after(text, Cursor { at: name }, 4)))
}

#[tactic(auto, unfolding(crate::specs::Attribute::ends_literal))]
fn ends_literal(kind: u8) -> bool
    ensures { result ≡ ends_literal kind }
{
    kind == b'>' || kind == 0
}

// The cursor after the first `>` from a cursor on, or at the end of the text.
fn close_of(text: &[u8], from: Cursor) -> Cursor
    ensures { result.at ≡ close_from (length text.now) text.now from.at }
{
    let mut c = from;
    for _ in 0..text.len() {
        let t = token(text, c);
        c = after(t);
        if ends_literal(t.kind) {
            return c;
        }
    }
    c
}

pub fn dense_at(text: &[u8], name: usize) -> Constant
    ensures { result ≡ dense_tokens text.now name }
{
    let literal = token_after(text, Cursor { at: name }, 4).start;
    let close = close_of(text, Cursor { at: literal });
    Constant {
        literal,
        ty: token_after(text, close, 1).start,
    }
}
