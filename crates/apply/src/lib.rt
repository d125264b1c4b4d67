// One op on its operands' elements: the function of its class fills the lent stretch. Three classes are done by their own functions: a constant is
// read from the text, concatenate reads the whole store, and a quotient may meet a zero divisor.
#![tactic(auto)]

ghost use Rattle.std.specs.Prelude.{◌≡◌, eqb, length, get_or};
ghost use Rattle.shape.specs.Dims.{dims_of};
ghost use Rattle.run.specs.Run.{gives};
ghost use Rattle.ops.specs.declared.Kind.TheVariants.{Moved};
ghost use Rattle.ops.specs.Ops.{moved};
ghost use Rattle.apply.specs.Apply.{node_of, MoveReady, TaskReady, task_outcome};

use element::ElementType;
use limits::Limits;
use ops::{Kind, Move};
use shape::Shape;

// An op ready to be done: its class; the element types of its result, of operand 0 and of operand 1; the shapes of operand 0, of operand 2
// and of its result; its attribute lists, of which the first has `count` numbers, the others one for each dimension of operand 0.
#[derive(Clone, Copy)]
pub struct Task {
    pub kind: Kind,
    pub element: ElementType,
    pub source: ElementType,
    pub index: ElementType,
    pub from: Shape,
    pub last: Shape,
    pub to: Shape,
    pub count: usize,
    pub first: [usize; Limits::LIST],
    pub second: [usize; Limits::LIST],
    pub limit: [usize; Limits::LIST],
}

fn is_single(s: Shape) -> bool
    ensures { result ≡ eqb (length (dims_of s)) 0 }
{
    s.rank == 0
}

fn move_op(k: Task, m: Move, x: &[u64], out: &mut [u64])
    requires { MoveReady k m x.now out.old }
    ensures { out.new ≡ moved (node_of (Moved m) k) m x.now }
{
    match m {
        Move::Reshape => maps::reshape(x, k.from, k.to, out),
        Move::BroadcastInDim => maps::broadcast_in_dim(x, k.from, k.first, k.to, out),
        Move::Transpose => maps::transpose(x, k.from, k.first, k.to, out),
        Move::Slice => maps::slice(x, k.from, k.first, k.limit, k.second, k.to, out),
        Move::Reverse => maps::reverse(x, k.to, k.first, k.count, out),
    }
}

// The first element, 0 where there is none.
fn first_of(y: &[u64]) -> u64
    ensures { result ≡ get_or y.now 0 0 }
{
    y.first().copied().unwrap_or(0)
}

// x, y and z are the operands; starts are dynamic_slice's.
pub fn fill(k: Task, starts: [u64; Limits::RANK], x: &[u64], y: &[u64], z: &[u64], out: &mut [u64])
    requires { TaskReady k k.kind x.now y.now z.now out.old }
    ensures { task_outcome k k.kind starts x.now y.now z.now ≡ gives out.new }
{
    let v = first_of(y);
    let one = is_single(k.from);
    let other = is_single(k.last);
    match k.kind {
        Kind::Constant | Kind::Quotient(_) | Kind::Concatenate => {}
        Kind::Iota => maps::iota(k.element, k.first[0], k.to, out),
        Kind::Elementwise(op) => elementwise::unary_into(op, k.element, x, out),
        Kind::Pairwise(op) => elementwise::binary_into(op, k.element, x, y, out),
        Kind::Compare(direction) => elementwise::compare_into(direction, k.source, x, y, out),
        Kind::Convert => elementwise::convert_into(k.source, k.element, x, out),
        Kind::Select => elementwise::select_into(one, x, y, z, out),
        Kind::Clamp => elementwise::clamp_into(k.element, one, other, x, y, z, out),
        Kind::Moved(m) => move_op(k, m, x, out),
        Kind::Pad => maps::pad(x, k.from, k.first, k.second, v, k.to, out),
        Kind::DynamicSlice => maps::dynamic_slice(x, k.from, k.index, starts, k.to, out),
        Kind::Reduce(body) => {
            reduction::reduce(body, k.element, x, k.from, k.first, k.count, v, k.to, out)
        }
    }
}
