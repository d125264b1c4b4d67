// A cursor by value: the place in a text from which reading goes on.
#![tactic(auto)]

ghost use Rattle.std.specs.Prelude.{◌≡◌};
ghost use Rattle.cursor.specs.Cursor.{token_of, cursor_after, past_token};

use text::{Token, token_at};

// Reading goes on at byte at.
#[derive(Clone, Copy)]
pub struct Cursor {
    pub at: usize,
}

// The token at or after the cursor.
pub fn token(text: &[u8], c: Cursor) -> Token
    ensures { result ≡ token_of text.now c }
{
    token_at(text, c.at)
}

// The cursor after a token that was read.
pub fn after(t: Token) -> Cursor
    ensures { result ≡ cursor_after t }
{
    Cursor { at: t.end }
}

// The cursor after the token at or after it.
pub fn past(text: &[u8], c: Cursor) -> Cursor
    ensures { result ≡ past_token text.now c }
{
    after(token(text, c))
}
