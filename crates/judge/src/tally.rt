// What is counted from token to token.
ghost use Rattle.std.specs.Prelude.{◌≡◌};
ghost use Rattle.judge.specs.Tally.{TallyWithin, item_number, counts, elements_at, items_after, ops_after, tally_depth, after_token};

use crate::roles::is_item;
use grammar::symbols::Role;
use shape::size_of;
use text::Token;
use types::tensors::type_at;

// Whether the token before is a comma, so that a list goes on; the items of the list so far; the elements and the ops so far that sizes 3 and 4 count; the bodies that are open.
#[derive(Clone, Copy)]
pub struct Tally {
    pub more: bool,
    pub items: usize,
    pub elements: usize,
    pub ops: usize,
    pub depth: usize,
}

#[tactic(auto, unfolding(crate::specs::Tally::item_number))]
pub fn item_number(s: Tally) -> usize
    requires { TallyWithin 65536 s }
    ensures { result ≡ item_number s }
{
    if s.more { s.items + 1 } else { 1 }
}

// Whether size 3 counts the elements of a type of this role.
#[tactic(auto, unfolding(crate::specs::Tally::counts))]
fn is_counted(s: Tally, role: u8) -> bool
    ensures { result ≡ counts s role }
{
    role == Role::INPUT_TYPE || (role == Role::RESULT_TYPE && s.depth == 0)
}

#[tactic(auto, unfolding(crate::specs::Tally::elements_at))]
pub fn elements_at(text: &[u8], s: Tally, role: u8, t: Token) -> usize
    ensures { result ≡ elements_at text.now s role t }
{
    if !is_counted(s, role) {
        return 0;
    }
    let Some(x) = type_at(text, t.start) else {
        return 0;
    };
    if x.passed.is_none() {
        size_of(x.shape)
    } else {
        0
    }
}

#[tactic(auto, unfolding(crate::specs::Tally::items_after))]
fn items_after(s: Tally, role: u8) -> usize
    requires { TallyWithin 65536 s }
    ensures { result ≡ items_after s role }
{
    if is_item(role) {
        item_number(s)
    } else {
        s.items
    }
}

#[tactic(auto, unfolding(crate::specs::Tally::ops_after))]
fn ops_after(s: Tally, role: u8) -> usize
    requires { TallyWithin 65536 s }
    ensures { result ≡ ops_after s role }
{
    if role == Role::OP_NAME {
        s.ops + 1
    } else {
        s.ops
    }
}

#[tactic(auto, unfolding(crate::specs::Tally::tally_depth))]
fn depth_after(s: Tally, role: u8) -> usize
    requires { TallyWithin 65536 s }
    ensures { result ≡ tally_depth s role }
{
    match role {
        Role::BODY_OPEN => s.depth + 1,
        Role::BODY_CLOSE => s.depth.saturating_sub(1),
        _ => s.depth,
    }
}

// The state after a token.
#[tactic(auto, unfolding(crate::specs::Tally::after_token))]
pub fn after_token(text: &[u8], s: Tally, role: u8, t: Token) -> Tally
    requires { TallyWithin 65536 s }
    ensures { result ≡ after_token text.now s role t }
{
    Tally {
        more: role == Role::COMMA,
        items: items_after(s, role),
        elements: s.elements + elements_at(text, s, role, t),
        ops: ops_after(s, role),
        depth: depth_after(s, role),
    }
}
