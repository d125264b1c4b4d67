// A line of output: an op's mnemonic, then its result's slots in decimal. A write that fails is passed over.
#![tactic(auto)]

pub fn show(rt: &impl Print, name: &[u8], slots: &[u64]) {
    let _ = rt.write_all(name);
    for slot in slots {
        let _ = rt.print(format_args!(" {slot}"));
    }
    let _ = rt.write_all(b"\n");
}
