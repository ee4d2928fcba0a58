// The line that a refusal names, as a part of the sheet that it stands in. Rests on text for lines.
#![tactic(auto)]

ghost use Rattle.locate.specs.Located.{located};
ghost use Rattle.locate.specs.Places.{is_network, SpanIs, RangeIs, LineIs, PlaceIs};

use std::ops::Range;

// The two sheets.
#[derive(Clone, Copy, PartialEq, Eq)]
pub enum Sheet {
    Design,
    Network,
}

// A part of a sheet by its length, for a caller who cannot be handed the part itself.
#[derive(Clone, Copy)]
pub struct Place {
    pub sheet: Sheet,
    pub start: usize,
    pub length: usize,
}

// A line of a text without its 0x0A; where there is no such line, the empty part at the text's end.
fn span_of(s: &[u8], line: usize) -> Range<usize>
    ensures { SpanIs s.now line result.start result.end }
{
    let mut at = 0;
    let mut number = 1;
    // The walk goes from line to line until the text ends: it is no range of places or of numbers.
    while at < s.len() {
        let e = text::line_end(s, at);
        if number == line {
            return at..e;
        }
        at = e + 1;
        number += 1;
    }
    s.len()..s.len()
}

// Which part of which sheet the line of a refusal is: the number says of which sheet.
fn range_of(design: &[u8], network: &[u8], number: usize, line: usize) -> (Sheet, Range<usize>)
    ensures { RangeIs (located design.now network.now number line) (is_network result.0) result.1.start result.1.end }
{
    match number {
        2..=5 => (Sheet::Design, span_of(design, line)),
        10..=11 => (Sheet::Network, span_of(network, line)),
        _ => (Sheet::Design, design.len()..design.len()),
    }
}

// The line of a refusal itself.
pub fn line_at<'a>(design: &'a [u8], network: &'a [u8], number: usize, line: usize) -> &'a [u8]
    ensures { LineIs (located design.now network.now number line) design.entry network.entry result }
{
    let (sheet, span) = range_of(design, network, number, line);
    match sheet {
        Sheet::Design => &design[span],
        Sheet::Network => &network[span],
    }
}

// Where the line of a refusal stands.
pub fn place_of<'a>(design: &'a [u8], network: &'a [u8], number: usize, line: usize) -> Place
    ensures { PlaceIs (located design.now network.now number line) (is_network result.sheet) result.start result.length }
{
    let (sheet, span) = range_of(design, network, number, line);
    Place {
        sheet,
        start: span.start,
        length: line_at(design, network, number, line).len(),
    }
}
