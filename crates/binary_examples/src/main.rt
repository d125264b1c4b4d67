// Runs the proved ops on two operands, element by element, on the examples of 01 and of 000, as examples/binary_ops.mlir has them, and writes
// their results.
#![tactic(auto)]

mod binaries;

fn main(rt: HostRuntime) {
    binaries::add_examples(&rt);
    binaries::subtract_examples(&rt);
    binaries::multiply_examples(&rt);
    binaries::maximum_examples(&rt);
    binaries::minimum_examples(&rt);
    binaries::bit_and_examples(&rt);
    binaries::bit_or_examples(&rt);
    binaries::bit_xor_examples(&rt);
    binaries::shift_left_examples(&rt);
    binaries::shift_right_arithmetic_examples(&rt);
    binaries::shift_right_logical_examples(&rt);
}
