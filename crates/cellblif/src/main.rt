// Takes a design sheet, a byte 0x00 and a network sheet on standard input, and prints the network as a text in BLIF, or
// `refused N line L`. Everything that matters is in blif. The buffer holds every text, so question 9 is always answered yes.
#![tactic(auto)]

ghost use Rattle.std.specs.Prelude.{◌≤◌, length};
ghost use Rattle.limits.specs.Limits.{max_blif};

// Exports a network, with a buffer for its text, and prints the answer.
fn answer(rt: &impl Print, sheet: &[u8], network: &[u8], buffer: &mut [u8]) -> std::io::Result<()>
    requires { max_blif ≤ length buffer.old }
{
    match blif::export(sheet, network, buffer) {
        Ok(length) => console::show(rt, buffer, length),
        Err(refusal) => console::refused(rt, refusal),
    }
}

// The two sheets of a text, as answer has it.
fn both(rt: &impl Print, s: &[u8], buffer: &mut [u8]) -> std::io::Result<()>
    requires { max_blif ≤ length buffer.old }
{
    let p = console::two_sheets(s);
    answer(rt, &s[..p.end], &s[p.start..], buffer)
}

fn main(rt: HostRuntime) {
    let mut text = [0u8; console::BOTH_SHEETS];
    let n = console::read_text(&mut text);
    let mut buffer = [0u8; limits::MAX_BLIF];
    console::tell(&rt, "cellblif", both(&rt, &text[..n], &mut buffer));
}
