// Checks a text on standard input: prints `accepted`, or `refused` and the three numbers of refusal 1 to 8.
#![tactic(auto)]

ghost use Rattle.std.specs.Prelude.{◌≡◌, ◌≤◌, length};

use limits::Limits;
use streams::{no_arguments, read_text, write_text};
use verdict_lines::print_verdict;

// Reads the text, checks it and writes what is printed: `text` and `out` are lent for it.
fn run(rt: &HostRuntime, text: &mut [u8], out: &mut [u8])
    requires { (length text.old ≡ 65537) × (71 ≤ length out.old) }
{
    let Some(t) = read_text(rt, &mut rt.stdin(), text) else {
        return;
    };
    let r = print_verdict(&text[..t.len], t.more, out);
    write_text(rt, &mut rt.stdout(), &out[..r]);
}

fn main(rt: HostRuntime) {
    if no_arguments(&rt) {
        let mut text = [0u8; Limits::TEXT + 1];
        let mut out = [0u8; 71];
        run(&rt, &mut text, &mut out);
    }
}
