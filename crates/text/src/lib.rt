// Tokens by longest match, and names.
#![tactic(auto)]

ghost use Rattle.std.specs.Prelude.{◌≡◌, length, drop, ◌<◌, true};
ghost use Rattle.scan.specs.Ascii.{ascii};
ghost use Rattle.scan.specs.Bytes.{starts_with};
ghost use Rattle.text.specs.Lex.{tok, mark_token, name_end, name_token, sign_token, quote_token, plain_word, tensor_token, word_token, lexeme, token_at};

pub mod names;

use scan::bytes::{byte_at, is_digit, is_letter, is_sigil, is_sign, run_end, skip, starts};
use scan::typetext::{type_close, word_end};

// A token: what it is, its first byte, and the place after its last.
// Kinds: 0 the end of the text, 1 word, 2 number with its sign, 3 name with its sigil, 4 `func.func`, 5 `#stablehlo`, 6 `"word.word"`,
// 7 tensor type, 8 `->`, 9 a byte that is no mark; the kind of a mark is the mark's own byte.
// Kept: a kind is a number, as `tok`, `lexeme` and `Form` of specs and the table of the grammar say it.
#[derive(Clone, Copy)]
pub struct Token {
    pub kind: u8,
    pub start: usize,
    pub end: usize,
}

impl Token {
    fn new(kind: u8, start: usize, end: usize) -> Token
        ensures { result ≡ tok kind start end }
    {
        Token { kind, start, end }
    }
}

#[tactic(auto, using(std::proofs::lemmas::Bool::Decides::nat_tests), unfolding(crate::specs::Lex::mark_token))]
fn mark_token(text: &[u8], at: usize) -> Token
    requires { at < length text.now }
    ensures { result ≡ mark_token text.now at }
{
    let kind = if matches!(text[at], b'!'..=b'~') {
        text[at]
    } else {
        9
    };
    Token::new(kind, at, at + 1)
}

// Where a name ends whose sigil stands before `at`.
#[tactic(auto, using(std::proofs::lemmas::Bool::Decides::nat_tests), unfolding(crate::specs::Lex::name_end))]
fn name_end(text: &[u8], sigil: u8, at: usize) -> usize
    ensures { result ≡ name_end sigil text.now at }
{
    if is_letter(byte_at(text, at)) {
        run_end(text, true, at)
    } else if sigil == b'@' {
        at
    } else {
        run_end(text, false, at)
    }
}

// A name with its sigil; a sigil alone is a mark.
#[tactic(auto, using(std::proofs::lemmas::Bool::Decides::nat_tests), unfolding(crate::specs::Lex::name_token))]
fn name_token(text: &[u8], at: usize) -> Token
    requires { at < length text.now }
    ensures { result ≡ name_token text.now at }
{
    let end = name_end(text, text[at], at + 1);
    if end == at + 1 {
        mark_token(text, at)
    } else {
        Token::new(3, at, end)
    }
}

// A number with its sign, `->`, or the sign alone.
#[tactic(auto, using(std::proofs::lemmas::Bool::Decides::nat_tests), unfolding(crate::specs::Lex::sign_token))]
fn sign_token(text: &[u8], at: usize) -> Token
    requires { at < length text.now }
    ensures { result ≡ sign_token text.now at }
{
    if is_digit(byte_at(text, at + 1)) {
        Token::new(2, at, run_end(text, false, at + 1))
    } else if starts(text, at, b"->") {
        Token::new(8, at, at + 2)
    } else {
        mark_token(text, at)
    }
}

// `"word.word"`, or the quote alone.
#[tactic(auto, using(std::proofs::lemmas::Bool::Decides::nat_tests), unfolding(crate::specs::Lex::quote_token))]
fn quote_token(text: &[u8], at: usize) -> Token
    requires { at < length text.now }
    ensures { result ≡ quote_token text.now at }
{
    let dot = word_end(text, at + 1);
    if byte_at(text, dot) != b'.' {
        return mark_token(text, at);
    }
    let close = word_end(text, dot + 1);
    if byte_at(text, close) != b'"' {
        return mark_token(text, at);
    }
    Token::new(6, at, close + 1)
}

#[tactic(auto, using(std::proofs::lemmas::Bool::Decides::nat_tests), unfolding(crate::specs::Lex::plain_word))]
fn plain_word(text: &[u8], at: usize) -> Token
    ensures { result ≡ plain_word text.now at }
{
    Token::new(1, at, run_end(text, true, at))
}

// At `tensor<`: a tensor type, or the word.
#[tactic(auto, using(std::proofs::lemmas::Bool::Decides::nat_tests), unfolding(crate::specs::Lex::tensor_token))]
fn tensor_token(text: &[u8], at: usize) -> Token
    requires { starts_with (ascii "tensor<") (drop at text.now) ≡ true }
    ensures { result ≡ tensor_token text.now at }
{
    let close = type_close(text, at + 7);
    if byte_at(text, close) == b'>' {
        Token::new(7, at, close + 1)
    } else {
        plain_word(text, at)
    }
}

// `func.func`, a tensor type, or a word.
#[tactic(auto, using(std::proofs::lemmas::Bool::Decides::nat_tests), unfolding(crate::specs::Lex::word_token))]
fn word_token(text: &[u8], at: usize) -> Token
    ensures { result ≡ word_token text.now at }
{
    if starts(text, at, b"func.func") {
        Token::new(4, at, at + 9)
    } else if starts(text, at, b"tensor<") {
        tensor_token(text, at)
    } else {
        plain_word(text, at)
    }
}

// The token that starts at `at`.
#[tactic(auto, using(std::proofs::lemmas::Bool::Decides::nat_tests), unfolding(crate::specs::Lex::lexeme))]
fn lexeme_at(text: &[u8], at: usize) -> Token
    ensures { result ≡ lexeme text.now at }
{
    if text.len() <= at {
        return Token::new(0, at, at);
    }
    let b = text[at];
    if is_letter(b) {
        word_token(text, at)
    } else if is_digit(b) {
        Token::new(2, at, run_end(text, false, at))
    } else if is_sigil(b) {
        name_token(text, at)
    } else if is_sign(b) {
        sign_token(text, at)
    } else if b == b'"' {
        quote_token(text, at)
    } else if starts(text, at, b"#stablehlo") {
        Token::new(5, at, at + 10)
    } else {
        mark_token(text, at)
    }
}

// The first token at or after `at`.
#[tactic(auto, using(std::proofs::lemmas::Bool::Decides::nat_tests), unfolding(crate::specs::Lex::token_at))]
pub fn token_at(text: &[u8], at: usize) -> Token
    ensures { result ≡ token_at text.now at }
{
    lexeme_at(text, skip(text, at))
}
