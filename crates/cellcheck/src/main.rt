// Reads a design sheet, a byte 0x00 and a network sheet from standard input, and prints `same`, `differs output O row R`, or
// `refused N line L`. Everything that matters is in checker.
#![tactic(auto)]

use comparing::Comparison;

// Compares two sheets, and prints the answer.
fn answer(rt: &impl Print, sheet: &[u8], network: &[u8]) -> std::io::Result<()> {
    match checker::check(sheet, network) {
        Ok(Comparison::Same) => println!(rt; "same"),
        Ok(Comparison::Differs { output, row }) => println!(rt;
            "differs output {output} row {row}"
        ),
        Err(refusal) => console::refused(rt, refusal),
    }
}

// The two sheets of a text, as answer has it.
fn both(rt: &impl Print, s: &[u8]) -> std::io::Result<()> {
    let p = console::two_sheets(s);
    answer(rt, &s[..p.end], &s[p.start..])
}

fn main(rt: HostRuntime) {
    let mut text = [0u8; console::BOTH_SHEETS];
    let n = console::read_text(&mut text);
    console::tell(&rt, "cellcheck", both(&rt, &text[..n]));
}
