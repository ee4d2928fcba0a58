// What the programs do with standard input and output: a text is read to its end, two sheets in one text are told apart, and
// texts and refusals are printed. Each function that writes answers whether it could, and tell says so on standard
// error where it could not. Rests on the kit's io for reading, since std has no call that fills a buffer as far as the input goes
// and says how far that is, and on limits for how long sheets are.
#![tactic(auto)]

ghost use Rattle.std.specs.Prelude.{◌≤◌, length};
ghost use Rattle.io.specs.Counts.{IsPrefixLen};

use refusal::Refusal;
use std::io::ErrorKind;

// The file descriptor of standard input, as POSIX numbers it.
pub const STDIN: i32 = 0;

// How much is read at a time of what is dropped.
const AT_A_TIME: usize = 4096;

// Reads further, and answers whether there may be more.
fn read_on() -> bool {
    let mut rest = [0u8; AT_A_TIME];
    io::read_full(STDIN, &mut rest) == AT_A_TIME
}

// Reads standard input to its end. A loop has to end, and nothing says that the input does: the turns are counted up to
// a number that no input needs.
fn drain() {
    for _ in 0..u64::MAX {
        if !read_on() {
            return;
        }
    }
}

// Reads standard input to its end, so that whoever writes a long text can write it all, and keeps as much of it as the buffer
// holds. Answers how much that is.
pub fn read_text(buffer: &mut [u8]) -> usize
    ensures { IsPrefixLen result buffer.new }
{
    let n = io::read_full(STDIN, buffer);
    if n == buffer.len() {
        drain();
    }
    n
}

// The bytes of a design sheet, the one between the sheets, those of a network sheet, and one by which a longer text is seen to
// be too long.
pub const BOTH_SHEETS: usize = limits::MAX_SHEET + 1 + limits::MAX_NETWORK + 1;

// Where the first of two sheets ends and where the second starts.
#[derive(Drop)]
pub struct Sheets {
    pub end: usize,
    pub start: usize,
}

// Two sheets in one text, parted by the first 0x00: no valid sheet of either kind has such a byte, and a network sheet is
// refused at its first one. Without it the whole text is the first sheet.
pub fn two_sheets(s: &[u8]) -> Sheets
    ensures { (result.end ≤ result.start) × (result.start ≤ length s.now) }
{
    match s.iter().position(|&b| b == 0) {
        Some(end) => Sheets {
            end,
            start: end + 1,
        },
        None => Sheets {
            end: s.len(),
            start: s.len(),
        },
    }
}

// Prints the first bytes of a text, where it has so many.
pub fn show(rt: &impl Print, text: &[u8], length: usize) -> std::io::Result<()> {
    match text.get(..length) {
        Some(first) => rt.write_all(first),
        None => Err(ErrorKind::InvalidInput.into()),
    }
}

// Prints the number of the question that was answered "no", and the line.
pub fn refused(rt: &impl Print, refusal: Refusal) -> std::io::Result<()> {
    println!(rt;
        "refused {} line {}",
        refusal.question.number(),
        refusal.line
    )
}

// Tells on standard error where a program's answer was not written in full: a program here has no exit status that could say so.
pub fn tell(rt: &impl Eprint, program: &str, answer: std::io::Result<()>) {
    if answer.is_err() {
        let _ = eprintln!(rt; "{program}: the answer could not be written");
    }
}
