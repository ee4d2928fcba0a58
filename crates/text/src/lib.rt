// Texts as slices of bytes: whether two are the same, and where a line ends. What the specification says of bytes, lines and
// numbers stands in specs/.
#![tactic(auto)]

ghost use Rattle.std.specs.Prelude.{◌≡◌, ◌≤◌, length};
ghost use Rattle.text.specs.Bytes.{same};
ghost use Rattle.text.specs.LineEnd.{LineEnd};

// Whether two texts are the same.
pub fn equal(a: &[u8], b: &[u8]) -> bool
    ensures { result ≡ same a.now b.now }
{
    a == b
}

// The place of the first 0x0A from a place on, or the text's length.
pub fn line_end(s: &[u8], at: usize) -> usize
    requires { at ≤ length s.now }
    ensures { LineEnd s.now at result }
{
    for e in at..s.len() {
        if s[e] == b'\n' {
            return e;
        }
    }
    s.len()
}
