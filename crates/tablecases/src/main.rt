// Executes design sheets, good and bad: each is given to Table, and what came is compared with what must come.
//
// Standard input holds blocks. A block is a line `NAME OUTPUT BUFFER LENGTH EXPECTED`, where EXPECTED is
// `refused N line L` or `written K DIGITS`; then LENGTH bytes, the sheet; then 0x0A. Table is lent BUFFER bytes, each
// of them a mark that it never writes, so a byte that it should have left alone shows.
#![tactic(auto)]

ghost use Rattle.std.specs.Prelude.{◌≡◌, ℕ, ◌≤◌, ◌<◌, length, IfSome};

use arrayvec::ArrayVec;
use console::STDIN;
use refusal::Refusal;
use std::io::{Result, Write};

// The most bytes of standard input.
const MAX_TEXT: usize = 655360;

// The most bytes that Table is lent.
const MAX_BUFFER: usize = 2048;

// The most bytes of an answer in words.
const MAX_LINE: usize = 4096;

// What stands in the buffer before the call.
const MARK: u8 = b'.';

// Word k of a line, counted from 0, or nothing where it has no such word.
fn word(line: &[u8], k: usize) -> &[u8] {
    line.split(|&b| b == b' ').nth(k).unwrap_or(b"")
}

// What must come, all that follows the fourth word.
fn expected(line: &[u8]) -> &[u8] {
    line.splitn(5, |&b| b == b' ').nth(4).unwrap_or(b"")
}

// What a digit stands for, and 0 for another byte.
fn digit(b: u8) -> usize
    ensures { result ≤ 9 }
{
    match b {
        b'0'..=b'9' => usize::from(b - b'0'),
        _ => 0,
    }
}

// The number that a word spells, or the largest number where that is too large.
fn number(word: &[u8]) -> usize {
    word.iter().fold(
        0usize,
        |n, &b| n.saturating_mul(10).saturating_add(digit(b)),
    )
}

// The first line of a text, and what follows it.
fn first_line(t: &[u8]) -> (&[u8], &[u8])
    ensures { 0 < length t.now → length result.1.now < length t.now }
{
    match t.iter().position(|&b| b == b'\n') {
        Some(e) => (&t[..e], &t[e + 1..]),
        None => (t, b""),
    }
}

// The first n bytes of a text, and what follows them and the byte after them, where there are so many.
fn sheet_of(t: &[u8], n: usize) -> Option<(&[u8], &[u8])>
    ensures { IfSome result (λ p. length p.1.now ≤ length t.now) }
{
    let (sheet, rest) = t.split_at_checked(n)?;
    let (_, next) = rest.split_first()?;
    Some((sheet, next))
}

// Whether every byte from a place on is still the mark. Where the place is known as this is compiled, many bytes are looked at in a
// step, so each case of an answer calls it with its own.
fn kept(buffer: &[u8], from: usize) -> bool {
    for i in from..buffer.len() {
        if buffer[i] != MARK {
            return false;
        }
    }
    true
}

// Puts what Table answers when it is lent n bytes, in the words of EXPECTED, with a remark where other bytes of the buffer were
// changed.
fn put_answer(
    sheet: &[u8],
    output: usize,
    n: usize,
    came: &mut ArrayVec<u8, MAX_LINE>,
) -> Result<()>
    requires { n ≤ 2048 }
{
    let mut buffer = [MARK; MAX_BUFFER];
    let is_kept = match design::table(sheet, output, &mut buffer[..n]) {
        Ok(count) => {
            write!(came, "written {count} ")?;
            came.write_all(buffer.get(..count).unwrap_or(b""))?;
            kept(&buffer, count)
        }
        Err(Refusal { question, line }) => {
            write!(came, "refused {} line {line}", question.number())?;
            kept(&buffer, 0)
        }
    };
    if !is_kept {
        came.write_all(b", and other bytes were changed")?;
    }
    Ok(())
}

// Says that a block went wrong, and what came.
fn put_wrong(rt: &impl Print, name: &[u8], came: &[u8]) -> Result<()> {
    rt.write_all(name)?;
    rt.write_all(b" WRONG ")?;
    rt.write_all(came)?;
    rt.write_all(b"\n")
}

// Executes a sheet by the words of its block's first line, and says how that went. Answers whether what came is what must come.
fn execute(rt: &impl Print, head: &[u8], sheet: &[u8]) -> Result<bool> {
    let n = number(word(head, 2));
    if MAX_BUFFER < n {
        put_wrong(rt, head, b"the buffer is too long")?;
        return Ok(false);
    }
    let mut came = ArrayVec::new();
    put_answer(sheet, number(word(head, 1)), n, &mut came)?;
    let name = word(head, 0);
    if came.as_slice() == expected(head) {
        rt.write_all(name)?;
        rt.write_all(b" ok\n")?;
        return Ok(true);
    }
    put_wrong(rt, name, came.as_slice())?;
    Ok(false)
}

// Executes all blocks, and says how many there were and how many went wrong. A block whose sheet is not there in full is the last.
// Where a block could not be said to be right or wrong, those after it are executed all the same, and nothing is said of all.
fn execute_all(rt: &impl Print, t: &[u8]) -> Result<()> {
    let mut rest = t;
    let mut done: u64 = 0;
    let mut wrong: u64 = 0;
    let mut written = Ok(());
    // A loop over blocks, each of which says how long it is: no iterator knows that.
    while !rest.is_empty() {
        let (head, after) = first_line(rest);
        done += 1;
        let Some((sheet, next)) = sheet_of(after, number(word(head, 3))) else {
            written = written.and(put_wrong(rt, head, b"the sheet breaks off"));
            wrong += 1;
            break;
        };
        match execute(rt, head, sheet) {
            Ok(true) => {}
            Ok(false) => wrong += 1,
            Err(error) => written = Err(error),
        }
        rest = next;
    }
    written?;
    println!(rt; "{done} sheets, {wrong} wrong")
}

// A buffer of N bytes. N is a parameter, so that no proof counts the bytes.
fn zeros<const N: usize>() -> [u8; N]
    ensures { N ≡ length result }
{
    [0; N]
}

fn main(rt: HostRuntime) {
    let mut text: [u8; MAX_TEXT] = zeros();
    let n = io::read_full(STDIN, &mut text);
    console::tell(&rt, "tablecases", execute_all(&rt, &text[..n]));
}
