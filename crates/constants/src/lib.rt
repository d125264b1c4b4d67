// constant: "Produces an `output` tensor from a constant `value`" (000). The lent stretch is filled with the given elements.
#![tactic(auto)]

ghost use Rattle.std.specs.Prelude.{◌≡◌, length};

// As many elements as the result has: C1, type(value) = type(output). What the op gives: proofs/ConstantLaw.
pub fn constant_into(values: &[u64], out: &mut [u64])
    requires { length values.now ≡ length out.old }
    ensures { out.new ≡ values.now }
{
    out.copy_from_slice(values);
}
