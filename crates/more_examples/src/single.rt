// select and clamp with operands of rank 0, whose one element serves every element of the result.
ghost use Rattle.std.specs.Prelude.{◌≡◌, true, [], ◌∷◌, length, eqb};
ghost use Rattle.lists.specs.Lists.{tab};
ghost use Rattle.element.specs.declared.ElementType.TheVariants.{I32};
ghost use Rattle.elementwise.specs.Elementwise.{SelectSized, ClampSized, select_at, clamp_at};

use crate::given::given;
use element::ElementType;
use shown::show;

// pred has rank 0.
fn select(rt: &impl Print, pred: &[u64], x: &[u64], y: &[u64], out: &mut [u64])
    requires { SelectSized true (length out.old) pred.now x.now y.now }
    ensures { out.new ≡ tab (length out.old) (select_at true pred.now x.now y.now) }
{
    elementwise::select_into(true, pred, x, y, out);
    show(rt, b"select", out);
}

// min has rank 0 where `one` says so, max where `other` does.
fn clamp(
    rt: &impl Print,
    one: bool,
    other: bool,
    min: &[u64],
    x: &[u64],
    max: &[u64],
    out: &mut [u64],
)
    requires { ClampSized one other (length out.old) min.now x.now max.now }
    ensures { out.new ≡ tab (length out.old) (clamp_at I32 one other min.now x.now max.now) }
{
    elementwise::clamp_into(ElementType::I32, one, other, min, x, max, out);
    show(rt, b"clamp", out);
}

// select on the operands of 000, pred of rank 0
fn select_by(rt: &impl Print, flag: u64) {
    let pred = given(rt, [flag]);
    let x = given(rt, [1, 2, 3, 4]);
    let y = given(rt, [5, 6, 7, 8]);
    let mut out = [0u64; 4];
    select(rt, &pred, &x, &y, &mut out);
}

// clamp of 3, 13, 23: one element of min or max serves every element
fn clamp_by<const L: usize, const H: usize>(rt: &impl Print, min: [u64; L], max: [u64; H])
    requires { ClampSized (eqb L 1) (eqb H 1) 3 min (3 ∷ 13 ∷ 23 ∷ []) max }
{
    let min = given(rt, min);
    let x = given(rt, [3, 13, 23]);
    let max = given(rt, max);
    let mut out = [0; 3];
    clamp(rt, L == 1, H == 1, &min, &x, &max, &mut out);
}

// select: true and false
pub fn select_examples(rt: &impl Print) {
    select_by(rt, 1);
    select_by(rt, 0);
}

pub fn clamp_examples(rt: &impl Print) {
    clamp_by(rt, [5], [20]);
    clamp_by(rt, [5], [10, 11, 20]);
    clamp_by(rt, [5, 10, 15], [12]);
}
