// Executes the sheets to try (section 16 of docs/SPECIFICATION.md) that no theorem speaks of, and B, which needs a buffer of the caller's own:
// Map on sheet A with a buffer of 95 bytes, which stays as it was, with one of 96, and with one of 97, whose last byte stays;
// and on sheet I within 4 cells, within 3, and with a fourth output. Everything that matters is in mapper.
#![tactic(auto)]

use mapper::Mapped;

// Map's answer on a sheet and a buffer. Each function here answers whether all of what it has to say was written.
fn answer(rt: &impl Print, sheet: &[u8], buffer: &mut [u8]) -> std::io::Result<()> {
    match mapper::map(sheet, buffer) {
        Ok(Mapped { cells, length }) => println!(rt; "cells {cells} length {length}"),
        Err(refusal) => console::refused(rt, refusal),
    }
}

// Map's answer on sheet A, and the whole buffer.
fn sheet_a(rt: &impl Print, buffer: &mut [u8]) -> std::io::Result<()> {
    answer(
        rt,
        b"(design 1)\n(in a b c d)\n(bound a b c)\n(limit 2)\n(out f (xor a b c d))\n(out g (and (xor a b c) d))\n(end)\n",
        buffer,
    )?;
    rt.write_all(buffer)?;
    rt.write_all(b"\n")
}

fn sheets_b(rt: &impl Print) -> std::io::Result<()> {
    let mut short = [b'.'; 95];
    let mut enough = [b'.'; 96];
    let mut longer = [b'.'; 97];
    sheet_a(rt, &mut short)?;
    sheet_a(rt, &mut enough)?;
    sheet_a(rt, &mut longer)
}

// Each is asked, whether or not the answer before it could be written.
fn sheets_i(rt: &impl Print) -> std::io::Result<()> {
    let mut buffer = [0u8; limits::MAX_NETWORK];
    let four = answer(
        rt,
        b"(design 1)\n(in a b c d e x y)\n(bound a b c d e)\n(limit 4)\n(out f (or (and a x) (and e y)))\n(out g (xor b x))\n(out h (xor c x))\n(end)\n",
        &mut buffer,
    );
    let three = answer(
        rt,
        b"(design 1)\n(in a b c d e x y)\n(bound a b c d e)\n(limit 3)\n(out f (or (and a x) (and e y)))\n(out g (xor b x))\n(out h (xor c x))\n(end)\n",
        &mut buffer,
    );
    let none = answer(
        rt,
        b"(design 1)\n(in a b c d e x y)\n(bound a b c d e)\n(limit 0)\n(out f (or (and a x) (and e y)))\n(out g (xor b x))\n(out h (xor c x))\n(out i (xor d x))\n(end)\n",
        &mut buffer,
    );
    four.and(three).and(none)
}

// Both, one after the other.
fn sheets(rt: &impl Print) -> std::io::Result<()> {
    sheets_b(rt)?;
    sheets_i(rt)
}

fn main(rt: HostRuntime) {
    console::tell(&rt, "worked", sheets(&rt));
}
