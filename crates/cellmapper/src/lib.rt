// Table, Map, Check and Export on sheets, the line that a refusal names and the cause of a refusal by 8, and Table, Map, Check and
// the cause on PLA panels, as a caller in C has them (crate cellmapper_c, include/cellmapper.h): what a function has to say beside
// its result goes through references that the caller lends. Rests on design, mapper, checker, blif,
// locate and pla, and adds nothing to what they answer; on reports for what a caller is told of an answer.
#![tactic(auto)]

ghost use Rattle.std.specs.Prelude.{◌≡◌};
ghost use Rattle.sheet.specs.Examine as sheets;
ghost use Rattle.design.specs.Tabulate.{tabulate, table_of};
ghost use Rattle.network.specs.Check.{check, check_of};
ghost use Rattle.blif.specs.Export as spec;
ghost use Rattle.panel.specs.Examine.{examine};
ghost use Rattle.bits.specs.Logic.{pick};
ghost use Rattle.locate.specs.Located.{located};
ghost use Rattle.locate.specs.Places.{is_network};
ghost use Rattle.design.specs.Answer.{table_answer};
ghost use Rattle.mapper.specs.Answer.{map_answer};
ghost use Rattle.checker.specs.Answer.{checked_of};
ghost use Rattle.reports.specs.Report.{table_report, map_report, check_report, export_report, ReportedMap, ReportedCause, line_report};

use comparing::Comparison;
use mapper::Mapped;
use refusal::Refusal;

// Puts what Table answers, of a sheet or of a panel, into what the caller lends; the number is the function's result. The same for
// Map and for Check.
fn tell_table(t: Result<usize, Refusal>, line: &mut usize, written: &mut usize) -> u32
    ensures { record { number = result; line = line.new; written = written.new } ≡ table_report (table_answer t) }
{
    let r = reports::report_table(t);
    *line = r.line;
    *written = r.written;
    r.number
}

fn tell_map(
    m: Result<Mapped, Refusal>,
    line: &mut usize,
    cells: &mut usize,
    length: &mut usize,
) -> u32
    ensures { record { number = result; line = line.new; cells = cells.new; length = length.new } ≡ map_report (map_answer m) }
{
    let r = reports::report_map(m);
    *line = r.line;
    *cells = r.cells;
    *length = r.length;
    r.number
}

fn tell_check(
    c: Result<Comparison, Refusal>,
    line: &mut usize,
    differs: &mut usize,
    output: &mut usize,
    row: &mut usize,
) -> u32
    ensures { record { number = result; line = line.new; differs = differs.new; output = output.new; row = row.new }
        ≡ check_report (checked_of c) }
{
    let r = reports::report_check(c);
    *line = r.line;
    *differs = r.differs;
    *output = r.output;
    *row = r.row;
    r.number
}

pub fn cellmapper_table(
    sheet: &[u8],
    output: usize,
    buffer: &mut [u8],
    line: &mut usize,
    written: &mut usize,
) -> u32
    ensures written_after { record { number = result; line = line.new; written = written.new }
        ≡ table_report (tabulate sheet.now output buffer.old).answer }
    ensures buffer_after { buffer.new ≡ (tabulate sheet.now output buffer.old).buffer }
{
    tell_table(design::table(sheet, output, buffer), line, written)
}

pub fn cellmapper_map(
    sheet: &[u8],
    buffer: &mut [u8],
    line: &mut usize,
    cells: &mut usize,
    length: &mut usize,
) -> u32
    ensures { ReportedMap (sheets.examine sheet.now) buffer.old
        (record { number = result; line = line.new; cells = cells.new; length = length.new }) buffer.new }
{
    tell_map(mapper::map(sheet, buffer), line, cells, length)
}

pub fn cellmapper_cause(sheet: &[u8], outputs: &mut usize) -> u32
    ensures value { result ≡ 0 }
    ensures reported_cause { ReportedCause (sheets.examine sheet.now) outputs.new }
{
    *outputs = reports::report_cause(mapper::cause(sheet));
    0
}

pub fn cellmapper_check(
    sheet: &[u8],
    network: &[u8],
    line: &mut usize,
    differs: &mut usize,
    output: &mut usize,
    row: &mut usize,
) -> u32
    ensures { record { number = result; line = line.new; differs = differs.new; output = output.new; row = row.new }
        ≡ check_report (check sheet.now network.now) }
{
    tell_check(checker::check(sheet, network), line, differs, output, row)
}

pub fn cellmapper_export(
    sheet: &[u8],
    network: &[u8],
    buffer: &mut [u8],
    line: &mut usize,
    length: &mut usize,
) -> u32
    ensures length_after { record { number = result; line = line.new; length = length.new }
        ≡ export_report (spec.export sheet.now network.now buffer.old).answer }
    ensures buffer_after { buffer.new ≡ (spec.export sheet.now network.now buffer.old).buffer }
{
    let r = reports::report_export(blif::export(sheet, network, buffer));
    *line = r.line;
    *length = r.length;
    r.number
}

// The number that a caller in C knows a sheet by.
fn number_of(s: locate::Sheet) -> usize
    ensures { result ≡ pick (is_network s) 1 0 }
{
    match s {
        locate::Sheet::Design => 0,
        locate::Sheet::Network => 1,
    }
}

pub fn cellmapper_line<'a>(
    sheet: &'a [u8],
    network: &'a [u8],
    number: usize,
    line: usize,
    second: &mut usize,
    start: &mut usize,
    length: &mut usize,
) -> u32
    ensures { record { number = result; second = second.new; start = start.new; length = length.new }
        ≡ line_report (located sheet.now network.now number line) }
{
    let p = locate::place_of(sheet, network, number, line);
    *second = number_of(p.sheet);
    *start = p.start;
    *length = p.length;
    0
}

pub fn cellmapper_pla_table(
    pla: &[u8],
    board: &[u8],
    output: usize,
    buffer: &mut [u8],
    line: &mut usize,
    written: &mut usize,
) -> u32
    ensures written_after { record { number = result; line = line.new; written = written.new }
        ≡ table_report (table_of (examine pla.now board.now) output buffer.old).answer }
    ensures buffer_after { buffer.new ≡ (table_of (examine pla.now board.now) output buffer.old).buffer }
{
    tell_table(pla::table(pla, board, output, buffer), line, written)
}

pub fn cellmapper_pla_map(
    pla: &[u8],
    board: &[u8],
    buffer: &mut [u8],
    line: &mut usize,
    cells: &mut usize,
    length: &mut usize,
) -> u32
    ensures { ReportedMap (examine pla.now board.now) buffer.old
        (record { number = result; line = line.new; cells = cells.new; length = length.new }) buffer.new }
{
    tell_map(pla::map(pla, board, buffer), line, cells, length)
}

pub fn cellmapper_pla_cause(pla: &[u8], board: &[u8], outputs: &mut usize) -> u32
    ensures value { result ≡ 0 }
    ensures reported_cause { ReportedCause (examine pla.now board.now) outputs.new }
{
    *outputs = reports::report_cause(pla::cause(pla, board));
    0
}

pub fn cellmapper_pla_check(
    pla: &[u8],
    board: &[u8],
    network: &[u8],
    line: &mut usize,
    differs: &mut usize,
    output: &mut usize,
    row: &mut usize,
) -> u32
    ensures { record { number = result; line = line.new; differs = differs.new; output = output.new; row = row.new }
        ≡ check_report (check_of (examine pla.now board.now) network.now) }
{
    tell_check(pla::check(pla, board, network), line, differs, output, row)
}
