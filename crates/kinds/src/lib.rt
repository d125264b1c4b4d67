// The class of an op by its row of the op table, and where a constant's dense value begins.
#![tactic(auto)]

ghost use Rattle.std.specs.Prelude.{◌≡◌};
ghost use Rattle.ops.specs.declared.Kind.TheVariants.{Compare, Reduce};
ghost use Rattle.optable.specs.Table.{value, comparison_direction, direction_at};
ghost use Rattle.attribute.specs.Attribute.{dense_tokens};
ghost use Rattle.places.specs.Places.{body_open, place_of};
ghost use Rattle.attributes.specs.Attributes.{name_of, choice_of};
ghost use Rattle.bodies.specs.Bodies.{body_row};
ghost use Rattle.nodes.specs.Nodes.{reducer_at, op_kind};

use attribute::dense_at;
use attributes::{choice_of, name_of};
use bodies::body_row;
use ops::Kind;
use optable::{Attributes, Class, direction_at, op_row};
use places::{Part, place_of};
use program::Parts;
use scalar::Body;
use typing::row_of;

// A compare by its direction.
fn compare_of(text: &[u8], op: Parts) -> Kind
    ensures { result ≡ Compare (direction_at (choice_of text.now op comparison_direction)) }
{
    Kind::Compare(direction_at(choice_of(text, op, Attributes::COMPARISON_DIRECTION)))
}

// A reduce by the operation of its body.
fn reduce_of(text: &[u8], op: Parts) -> Kind
    ensures { result ≡ Reduce (reducer_at (body_row text.now (place_of op body_open 0))) }
{
    let body = body_row(text, place_of(op, Part::BODY_OPEN, 0));
    Kind::Reduce(op_row(body).reducer.unwrap_or(Body::Add))
}

// The class of an op.
// Kept: Class beside Kind, since Kind also has what stands in the text, compare's direction and reduce's operation.
pub fn kind_of(text: &[u8], op: Parts) -> Kind
    ensures { result ≡ op_kind text.now op }
{
    let class = row_of(text, op).class;
    match class {
        Class::Constant => Kind::Constant,
        Class::Iota => Kind::Iota,
        Class::Elementwise(o) => Kind::Elementwise(o),
        Class::Pairwise(o) => Kind::Pairwise(o),
        Class::Quotient(o) => Kind::Quotient(o),
        Class::Compare => compare_of(text, op),
        Class::Convert => Kind::Convert,
        Class::Select => Kind::Select,
        Class::Clamp => Kind::Clamp,
        Class::Moved(m) => Kind::Moved(m),
        Class::Pad => Kind::Pad,
        Class::Concatenate => Kind::Concatenate,
        Class::DynamicSlice => Kind::DynamicSlice,
        Class::Reduce => reduce_of(text, op),
    }
}

// The byte at which a constant's dense value begins.
pub fn literal_of(text: &[u8], op: Parts) -> usize
    ensures { result ≡ (dense_tokens text.now (name_of text.now op value)).literal }
{
    dense_at(text, name_of(text, op, Attributes::VALUE)).literal
}
