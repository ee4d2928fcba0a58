// Takes a PLA text, a byte 0x00 and a second text with the `bound` and the `limit` line on standard input, and prints the network,
// or `refused N line L`. Everything that matters is in pla. The first 0x00 parts the two texts: a PLA text that has one in an output
// part is refused on that line either way. The buffer holds every network sheet, so question 9 is always answered yes.
#![tactic(auto)]

use mapper::Mapped;

// The bytes of a PLA text, the one between the texts, those of the second text, and one by which a longer text is seen to be too
// long.
const BOTH_TEXTS: usize = limits::MAX_PLA + 1 + limits::MAX_SHEET + 1;

// Maps a panel, with a buffer for its network, and prints the answer.
fn answer(rt: &impl Print, pla: &[u8], board: &[u8], buffer: &mut [u8]) -> std::io::Result<()> {
    match pla::map(pla, board, buffer) {
        Ok(Mapped { length, .. }) => console::show(rt, buffer, length),
        Err(refusal) => console::refused(rt, refusal),
    }
}

// The two texts of a text, as answer has it.
fn both(rt: &impl Print, s: &[u8]) -> std::io::Result<()> {
    let p = console::two_sheets(s);
    let mut network = [0u8; limits::MAX_NETWORK];
    answer(rt, &s[..p.end], &s[p.start..], &mut network)
}

fn main(rt: HostRuntime) {
    let mut text = [0u8; BOTH_TEXTS];
    let n = console::read_text(&mut text);
    console::tell(&rt, "plamap", both(&rt, &text[..n]));
}
