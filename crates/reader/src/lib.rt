// A thin reader: the text's slice and a position in it, over functions on slice and number.
#![tactic(auto)]

ghost use Rattle.std.specs.Prelude.{◌≡◌};
ghost use Rattle.text.specs.Lex.{token_at};

use text::{Token, token_at};

// Reading goes on at byte at of the text.
#[derive(Clone, Copy)]
pub struct Reader<'a> {
    pub text: &'a [u8],
    pub at: usize,
}

// At the text's start.
pub fn new<'a>(text: &'a [u8]) -> Reader<'a>
    ensures { (result.text ≡ text.entry) × (result.at ≡ 0) }
{
    Reader { text, at: 0 }
}

// The token at or after the position.
pub fn token<'a>(r: Reader<'a>) -> Token
    ensures { result ≡ token_at r.entry.text.now r.entry.at }
{
    token_at(r.text, r.at)
}

// The same text, read from another byte on.
pub fn moved<'a>(r: Reader<'a>, at: usize) -> Reader<'a>
    ensures { (result.text ≡ r.entry.text) × (result.at ≡ at) }
{
    Reader { text: r.text, at }
}
