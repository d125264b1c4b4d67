// The eight sizes of 01: whether a token passes one.
ghost use Rattle.std.specs.Prelude.{◌≡◌};
ghost use Rattle.judge.specs.Tally.{TallyWithin};
ghost use Rattle.types.specs.Tensors.{passed_number};
ghost use Rattle.judge.specs.Sizes.{type_passed, many_elements, many_ops, many_items, long_list, large_number, long_name, size_passed, size_found};

use crate::roles::{is_listed, is_number, is_type};
use crate::tally::{Tally, elements_at, item_number};
use grammar::symbols::Role;
use limits::Limits;
use text::Token;
use types::numbers::pattern_in;
use types::tensors::{Passed, type_at};

// Sizes 1 and 2: the first that a type passes.
#[tactic(auto, unfolding(crate::specs::Sizes::type_passed))]
fn type_passed(text: &[u8], role: u8, t: Token) -> Option<Passed>
    ensures { passed_number result ≡ type_passed text.now role t }
{
    if !is_type(role) {
        return None;
    }
    match type_at(text, t.start) {
        Some(x) => x.passed,
        None => None,
    }
}

fn many_elements(text: &[u8], s: Tally, role: u8, t: Token) -> bool
    requires { TallyWithin 65536 s }
    ensures { result ≡ many_elements text.now s role t }
{
    Limits::ELEMENTS < s.elements + elements_at(text, s, role, t)
}

#[tactic(auto, unfolding(crate::specs::Sizes::many_ops))]
fn many_ops(s: Tally, role: u8) -> bool
    requires { TallyWithin 65536 s }
    ensures { result ≡ many_ops s role }
{
    role == Role::OP_NAME && Limits::OPS < s.ops + 1
}

#[tactic(auto, unfolding(crate::specs::Sizes::many_items))]
fn many_items(s: Tally, role: u8) -> bool
    requires { TallyWithin 65536 s }
    ensures { result ≡ many_items s role }
{
    is_listed(role) && Limits::OPERANDS < item_number(s)
}

#[tactic(auto, unfolding(crate::specs::Sizes::long_list))]
fn is_long_list(s: Tally, role: u8) -> bool
    requires { TallyWithin 65536 s }
    ensures { result ≡ long_list s role }
{
    role == Role::LIST_NUMBER && Limits::LIST < item_number(s)
}

#[tactic(auto, unfolding(crate::specs::Sizes::large_number))]
fn is_large_number(text: &[u8], role: u8, t: Token) -> bool
    ensures { result ≡ large_number text.now role t }
{
    is_number(role) && pattern_in(text, t.start).is_none()
}

#[tactic(auto, unfolding(crate::specs::Sizes::long_name))]
fn is_long_name(t: Token) -> bool
    ensures { result ≡ long_name t }
{
    t.kind == 3 && Limits::NAME < t.end.saturating_sub(t.start)
}

// The first size that a token passes.
#[tactic(auto, unfolding(crate::specs::Sizes::size_passed, crate::specs::Sizes::passes, crate::specs::Sizes::first_passed))]
pub fn size_passed(text: &[u8], s: Tally, role: u8, t: Token) -> Option<usize>
    requires { TallyWithin 65536 s }
    ensures { result ≡ size_found (size_passed text.now s role t) }
{
    match type_passed(text, role, t) {
        Some(Passed::Rank) => return Some(1),
        Some(Passed::Volume) => return Some(2),
        None => {}
    }
    if many_elements(text, s, role, t) {
        return Some(3);
    }
    if many_ops(s, role) {
        return Some(4);
    }
    if many_items(s, role) {
        return Some(5);
    }
    if is_long_list(s, role) {
        return Some(6);
    }
    if is_large_number(text, role, t) {
        return Some(7);
    }
    if is_long_name(t) {
        return Some(8);
    }
    None
}
