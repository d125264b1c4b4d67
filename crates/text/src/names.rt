// Stretches of the text compared byte by byte.
ghost use Rattle.std.specs.Prelude.{◌≡◌};
ghost use Rattle.text.specs.Names.{word_is, name_bytes, same_name};

use scan::bytes::{starts, tail};

// A name with its sigil, or a word: its first byte's place and its length.
#[derive(Clone, Copy)]
pub struct Name {
    pub at: usize,
    pub len: usize,
}

// Whether the bytes from `start` up to `end` are `word`.
#[tactic(auto, using(std::proofs::lemmas::Bool::Decides::nat_tests), unfolding(crate::specs::Names::word_is))]
pub fn is_word(text: &[u8], start: usize, end: usize, word: &[u8]) -> bool
    ensures { result ≡ word_is word.now text.now start end }
{
    start <= end && end - start == word.len() && starts(text, start, word)
}

// The bytes of a name.
fn name_bytes(text: &[u8], n: Name) -> &[u8]
    ensures { result.now ≡ name_bytes text.now n }
{
    let rest = tail(text, n.at);
    &rest[..n.len.min(rest.len())]
}

pub fn same_name(text: &[u8], a: Name, b: Name) -> bool
    ensures { result ≡ same_name text.now a b }
{
    a.len == b.len && name_bytes(text, a) == name_bytes(text, b)
}
