// Bytes of a text: their classes, runs of them, and white space.
ghost use Rattle.std.specs.Prelude.{◌≡◌, drop};
ghost use Rattle.scan.specs.Bytes.{byte_at, is_letter, is_digit, is_space, is_sigil, is_sign, in_run, run_end, starts_with, skip_end};
ghost use Rattle.scan.specs.Ascii.{ascii};

// 000: letter ::= 'a' | ... | 'z' | 'A' | ... | 'Z' | '_'.
pub fn is_letter(b: u8) -> bool
    ensures { result ≡ is_letter b }
{
    matches!(b, b'a'..=b'z' | b'A'..=b'Z' | b'_')
}

// 000: digit ::= '0' | ... | '9'.
pub fn is_digit(b: u8) -> bool
    ensures { result ≡ is_digit b }
{
    matches!(b, b'0'..=b'9')
}

// Space, tab, CR, LF.
fn is_space(b: u8) -> bool
    ensures { result ≡ is_space b }
{
    matches!(b, b' ' | b'\t' | b'\r' | b'\n')
}

pub fn is_sigil(b: u8) -> bool
    ensures { result ≡ is_sigil b }
{
    matches!(b, b'%' | b'@' | b'^')
}

pub fn is_sign(b: u8) -> bool
    ensures { result ≡ is_sign b }
{
    matches!(b, b'-' | b'+')
}

// A digit, or also a letter.
fn in_run(letters: bool, b: u8) -> bool
    ensures { result ≡ in_run letters b }
{
    is_digit(b) || letters && is_letter(b)
}

// The text from `at` on, empty past its end.
pub fn tail(text: &[u8], at: usize) -> &[u8]
    ensures { result.now ≡ drop at text.now }
{
    text.get(at..).unwrap_or(&[])
}

// The end of the run of digits, or of letters and digits, that starts at `at`.
pub fn run_end(text: &[u8], letters: bool, at: usize) -> usize
    ensures { result ≡ run_end letters text.now at }
{
    for (i, b) in tail(text, at).iter().enumerate() {
        if !in_run(letters, *b) {
            return at + i;
        }
    }
    at.max(text.len())
}

// The byte at `at`, 0 past the end.
pub fn byte_at(text: &[u8], at: usize) -> u8
    ensures { result ≡ byte_at text.now at }
{
    text.get(at).copied().unwrap_or(0)
}

// Whether the text at `at` starts with `word`.
pub fn starts(text: &[u8], at: usize, word: &[u8]) -> bool
    ensures { result ≡ starts_with word.now (drop at text.now) }
{
    let rest = tail(text, at);
    for (k, b) in word.iter().enumerate() {
        if rest.len() <= k || rest[k] != *b {
            return false;
        }
    }
    true
}

// The first place at or after `at` that is neither white space nor in a comment. A comment ends with its LF.
pub fn skip(text: &[u8], at: usize) -> usize
    ensures { result ≡ skip_end text.now at }
{
    let mut comment = false;
    for (i, b) in tail(text, at).iter().enumerate() {
        if comment {
            comment = *b != b'\n';
        } else if !is_space(*b) {
            if !starts(text, at + i, b"//") {
                return at + i;
            }
            comment = true;
        }
    }
    at.max(text.len())
}
