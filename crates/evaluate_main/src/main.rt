// Evaluates a text without inputs on standard input over a store of 8,192 slots: prints one line per result, or `refused` and the three numbers
// (01, "Table of examples").
#![tactic(auto)]

ghost use Rattle.std.specs.Prelude.{◌≡◌, ◌≤◌, length};

use limits::Limits;
use program_output::print_output;
use result_lines::Lines;
use streams::{no_arguments, read_text, write_text};

// Reads the text, evaluates it and writes what is printed: `text` and `out` are lent for it.
fn run(rt: &HostRuntime, text: &mut [u8], out: &mut [u8])
    requires { (length text.old ≡ 65537) × (1600008 ≤ length out.old) }
{
    let Some(t) = read_text(rt, &mut rt.stdin(), text) else {
        return;
    };
    let r = print_output(&text[..t.len], t.more, out);
    write_text(rt, &mut rt.stdout(), &out[..r]);
}

fn main(rt: HostRuntime) {
    if no_arguments(&rt) {
        let mut text = [0u8; Limits::TEXT + 1];
        let mut out = [0u8; Lines::MOST];
        run(&rt, &mut text, &mut out);
    }
}
