// One op on operands that stand in a slice of slots: its stretch is filled, or left as zeros where a divisor is zero.
#![tactic(auto)]

ghost use Rattle.std.specs.Prelude.{◌≡◌, ◌<◌, length};
ghost use Rattle.lists.specs.Lists.{tab};
ghost use Rattle.shape.specs.Index.{at};
ghost use Rattle.shape.specs.Dims.{Fills};
ghost use Rattle.ops.specs.declared.Kind.TheVariants.{Constant, Quotient, Concatenate};
ghost use Rattle.dimrules.specs.Types.{type_at};
ghost use Rattle.facts.specs.Facts.{AcceptedAs, DoneByTask, Shaped, task_of};
ghost use Rattle.doing.specs.Doing.{args_in, arguments_at, operand_in, start_in, op_gives, OperandsPlaced, Readable, Done, Gives, Answers};

use apply::Task;
use dimrules::TensorType;
use division::Division;
use elementwise::ZeroDivisor;
use limits::Limits;
use opcheck::Operation;
use ops::Kind;
use shape::Shape;

// The op as `apply` takes it.
fn task_of(kind: Kind, o: Operation) -> Task
    ensures { result ≡ task_of kind o }
{
    Task {
        kind,
        element: o.result.element,
        source: o.types[0].element,
        index: o.types[1].element,
        from: o.types[0].shape,
        last: o.types[2].shape,
        to: o.result.shape,
        count: o.a.count,
        first: o.a.list,
        second: o.c.list,
        limit: o.b.list,
    }
}

// The slot at p, 0 past the end.
fn slot_at(slots: &[u64], p: usize) -> u64
    ensures { result ≡ at slots.now p }
{
    slots.get(p).copied().unwrap_or(0)
}

// The first slot of each operand from operand 1 on: dynamic_slice's starts.
fn starts_of(places: [usize; Limits::OPERANDS], slots: &[u64]) -> [u64; Limits::RANK]
    ensures { result ≡ tab 6 (start_in places slots.now) }
{
    let mut starts = [0u64; Limits::RANK];
    for d in 0..Limits::RANK {
        starts[d] = slot_at(slots, places[d + 1]);
    }
    starts
}

// The shapes of the operands' types.
fn shapes_of(types: [TensorType; Limits::OPERANDS]) -> [Shape; Limits::OPERANDS]
    ensures { result ≡ tab 8 (λ j. (type_at types j).shape) }
{
    let mut shapes = [types[0].shape; Limits::OPERANDS];
    for j in 0..Limits::OPERANDS {
        shapes[j] = types[j].shape;
    }
    shapes
}

// Operand j; no slot where the op has no operand j.
fn operand(o: Operation, places: [usize; Limits::OPERANDS], slots: &[u64], j: usize) -> &[u64]
    requires { Shaped o × OperandsPlaced o places slots.now × (j < 8) }
    ensures { result.now ≡ operand_in o places slots.now j }
{
    if j < o.arity {
        let from = places[j];
        return &slots[from..from + shape::size_of(o.types[j].shape)];
    }
    &[]
}

// The elements of its dense value.
fn constant_op(text: &[u8], o: Operation, literal: usize, out: &mut [u64])
    requires { AcceptedAs Constant o × Readable Constant o text.now literal × Fills out.old o.result.shape }
    ensures { out.new ≡ arguments_at o text.now literal }
{
    dense::read_dense(text, literal, o.value.element, o.value.shape, out);
}

// divide or remainder: element by element, and all zeros where a divisor is zero.
fn quotient_op(
    number: usize,
    op: Division,
    o: Operation,
    places: [usize; Limits::OPERANDS],
    slots: &[u64],
    out: &mut [u64],
) -> Result<(), ZeroDivisor>
    requires { AcceptedAs (Quotient op) o × OperandsPlaced o places slots.now × Fills out.old o.result.shape }
    ensures { Answers number (Quotient op) o (args_in o places slots.now) result out.old out.new }
{
    let x = operand(o, places, slots, 0);
    let y = operand(o, places, slots, 1);
    if let Err(z) = elementwise::division_into(number, op, o.result.element, x, y, out) {
        out.fill(0);
        return Err(z);
    }
    Ok(())
}

// The operands one after the other along a dimension.
fn concatenate_op(o: Operation, places: [usize; Limits::OPERANDS], slots: &[u64], out: &mut [u64])
    requires { AcceptedAs Concatenate o × OperandsPlaced o places slots.now × Fills out.old o.result.shape }
    ensures { Gives Concatenate o (args_in o places slots.now) out.new }
{
    maps::concatenate(
        slots,
        o.a.list[0],
        shapes_of(o.types),
        places,
        o.arity,
        o.result.shape,
        out,
    )
}

// An op of any other kind.
fn task_op(
    kind: Kind,
    o: Operation,
    places: [usize; Limits::OPERANDS],
    slots: &[u64],
    out: &mut [u64],
)
    requires { AcceptedAs kind o × DoneByTask kind × OperandsPlaced o places slots.now × Fills out.old o.result.shape }
    ensures { Gives kind o (args_in o places slots.now) out.new }
{
    let x = operand(o, places, slots, 0);
    let y = operand(o, places, slots, 1);
    let z = operand(o, places, slots, 2);
    apply::fill(task_of(kind, o), starts_of(places, slots), x, y, z, out)
}

// Does one op: its stretch `out` is filled, or zeros are left and its number and the first element whose divisor is zero are answered.
pub fn do_op(
    text: &[u8],
    number: usize,
    kind: Kind,
    o: Operation,
    literal: usize,
    places: [usize; Limits::OPERANDS],
    slots: &[u64],
    out: &mut [u64],
) -> Result<(), ZeroDivisor>
    requires { AcceptedAs kind o × OperandsPlaced o places slots.now × Readable kind o text.now literal × Fills out.old o.result.shape }
    ensures { Done number (op_gives kind o (arguments_at o text.now literal) (args_in o places slots.now)) result out.old out.new }
{
    match kind {
        Kind::Constant => {
            constant_op(text, o, literal, out);
            Ok(())
        }
        Kind::Quotient(op) => quotient_op(number, op, o, places, slots, out),
        Kind::Concatenate => {
            concatenate_op(o, places, slots, out);
            Ok(())
        }
        _ => {
            task_op(kind, o, places, slots, out);
            Ok(())
        }
    }
}
