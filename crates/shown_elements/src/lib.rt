// Each function runs an op, element by element, on a stretch that it is lent, and shows what the op wrote there.
#![tactic(auto)]

ghost use Rattle.std.specs.Prelude.{◌≡◌, false, length};
ghost use Rattle.lists.specs.Lists.{tab};
ghost use Rattle.elementwise.specs.Elementwise.{unary_at, binary_at, compare_at, convert_at, select_at, clamp_at, left_by};
ghost use Rattle.shown_elements.specs.Held.{Held};

use division::Division;
use element::ElementType;
use scalar::{Binary, Direction, Unary};
use shown::show;

pub fn unary(rt: &impl Print, name: &[u8], op: Unary, t: ElementType, x: &[u64], out: &mut [u64])
    requires { length x.now ≡ length out.old }
    ensures { out.new ≡ tab (length out.old) (unary_at op t x.now) }
{
    elementwise::unary_into(op, t, x, out);
    show(rt, name, out);
}

pub fn binary(
    rt: &impl Print,
    name: &[u8],
    op: Binary,
    t: ElementType,
    x: &[u64],
    y: &[u64],
    out: &mut [u64],
)
    requires { (length x.now ≡ length out.old) × (length y.now ≡ length out.old) }
    ensures { out.new ≡ tab (length out.old) (binary_at op t x.now y.now) }
{
    elementwise::binary_into(op, t, x, y, out);
    show(rt, name, out);
}

pub fn compare(
    rt: &impl Print,
    name: &[u8],
    d: Direction,
    t: ElementType,
    x: &[u64],
    y: &[u64],
    out: &mut [u64],
)
    requires { (length x.now ≡ length out.old) × (length y.now ≡ length out.old) }
    ensures { out.new ≡ tab (length out.old) (compare_at d t x.now y.now) }
{
    elementwise::compare_into(d, t, x, y, out);
    show(rt, name, out);
}

pub fn convert(
    rt: &impl Print,
    name: &[u8],
    from: ElementType,
    to: ElementType,
    x: &[u64],
    out: &mut [u64],
)
    requires { length x.now ≡ length out.old }
    ensures { out.new ≡ tab (length out.old) (convert_at from to x.now) }
{
    elementwise::convert_into(from, to, x, out);
    show(rt, name, out);
}

// pred has the shape of the result.
pub fn select(rt: &impl Print, name: &[u8], pred: &[u64], x: &[u64], y: &[u64], out: &mut [u64])
    requires { (length pred.now ≡ length out.old) × (length x.now ≡ length out.old) × (length y.now ≡ length out.old) }
    ensures { out.new ≡ tab (length out.old) (select_at false pred.now x.now y.now) }
{
    elementwise::select_into(false, pred, x, y, out);
    show(rt, name, out);
}

// min and max have the shape of the result.
pub fn clamp(
    rt: &impl Print,
    name: &[u8],
    t: ElementType,
    min: &[u64],
    x: &[u64],
    max: &[u64],
    out: &mut [u64],
)
    requires { (length min.now ≡ length out.old) × (length x.now ≡ length out.old) × (length max.now ≡ length out.old) }
    ensures { out.new ≡ tab (length out.old) (clamp_at t false false min.now x.now max.now) }
{
    elementwise::clamp_into(t, false, false, min, x, max, out);
    show(rt, name, out);
}

// The quotients or remainders; nothing is shown where a divisor is zero.
pub fn division(
    rt: &impl Print,
    name: &[u8],
    op: Division,
    t: ElementType,
    x: &[u64],
    y: &[u64],
    out: &mut [u64],
)
    requires { Held t (length out.old) x.now × Held t (length out.old) y.now }
    ensures { out.new ≡ left_by op t x.now y.now out.old }
{
    if elementwise::division_into(0, op, t, x, y, out).is_ok() {
        show(rt, name, out);
    }
}
