// Takes a design sheet on standard input and prints its network, or `refused N line L` (clause 15.3). Everything that matters
// is in mapper. One byte more than a sheet may have is kept, so that a longer sheet is seen to be too long; the rest is read and
// dropped. The buffer holds every network sheet, so question 9 is always answered yes.
#![tactic(auto)]

use mapper::Mapped;

// Maps a sheet, with a buffer for its network, and prints the answer.
fn answer(rt: &impl Print, sheet: &[u8], buffer: &mut [u8]) -> std::io::Result<()> {
    match mapper::map(sheet, buffer) {
        Ok(Mapped { length, .. }) => console::show(rt, buffer, length),
        Err(refusal) => console::refused(rt, refusal),
    }
}

fn main(rt: HostRuntime) {
    let mut sheet = [0u8; limits::MAX_SHEET + 1];
    let n = console::read_text(&mut sheet);
    let mut network = [0u8; limits::MAX_NETWORK];
    console::tell(&rt, "cellmap", answer(&rt, &sheet[..n], &mut network));
}
