// The functions of the crate cellmapper for a caller in C, under the same names and with the same clauses, as include/cellmapper.h
// declares them: a slice is a pointer and a length. Rests on cellmapper, and adds nothing to what it answers.
#![tactic(auto)]

ghost use Rattle.std.specs.Prelude.{◌≡◌};
ghost use Rattle.sheet.specs.Examine as sheets;
ghost use Rattle.design.specs.Tabulate.{tabulate, table_of};
ghost use Rattle.network.specs.Check.{check, check_of};
ghost use Rattle.blif.specs.Export as spec;
ghost use Rattle.panel.specs.Examine.{examine};
ghost use Rattle.locate.specs.Located.{located};
ghost use Rattle.reports.specs.Report.{table_report, check_report, export_report, ReportedMap, ReportedCause, line_report};

#[unsafe(no_mangle)]
pub extern "C" fn cellmapper_table(
    sheet: &[u8],
    output: usize,
    buffer: &mut [u8],
    line: &mut usize,
    written: &mut usize,
) -> u32
    ensures written_after { record { number = result; line = line.new; written = written.new }
        ≡ table_report (tabulate sheet.now output buffer.old).answer }
    ensures buffer_after { buffer.new ≡ (tabulate sheet.now output buffer.old).buffer }
{
    cellmapper::cellmapper_table(sheet, output, buffer, line, written)
}

#[unsafe(no_mangle)]
pub extern "C" fn cellmapper_map(
    sheet: &[u8],
    buffer: &mut [u8],
    line: &mut usize,
    cells: &mut usize,
    length: &mut usize,
) -> u32
    ensures { ReportedMap (sheets.examine sheet.now) buffer.old
        (record { number = result; line = line.new; cells = cells.new; length = length.new }) buffer.new }
{
    cellmapper::cellmapper_map(sheet, buffer, line, cells, length)
}

#[unsafe(no_mangle)]
pub extern "C" fn cellmapper_cause(sheet: &[u8], outputs: &mut usize) -> u32
    ensures value { result ≡ 0 }
    ensures reported_cause { ReportedCause (sheets.examine sheet.now) outputs.new }
{
    cellmapper::cellmapper_cause(sheet, outputs)
}

#[unsafe(no_mangle)]
pub extern "C" fn cellmapper_check(
    sheet: &[u8],
    network: &[u8],
    line: &mut usize,
    differs: &mut usize,
    output: &mut usize,
    row: &mut usize,
) -> u32
    ensures { record { number = result; line = line.new; differs = differs.new; output = output.new; row = row.new }
        ≡ check_report (check sheet.now network.now) }
{
    cellmapper::cellmapper_check(sheet, network, line, differs, output, row)
}

#[unsafe(no_mangle)]
pub extern "C" fn cellmapper_export(
    sheet: &[u8],
    network: &[u8],
    buffer: &mut [u8],
    line: &mut usize,
    length: &mut usize,
) -> u32
    ensures length_after { record { number = result; line = line.new; length = length.new }
        ≡ export_report (spec.export sheet.now network.now buffer.old).answer }
    ensures buffer_after { buffer.new ≡ (spec.export sheet.now network.now buffer.old).buffer }
{
    cellmapper::cellmapper_export(sheet, network, buffer, line, length)
}

#[unsafe(no_mangle)]
pub extern "C" fn cellmapper_line<'a>(
    sheet: &'a [u8],
    network: &'a [u8],
    number: usize,
    line: usize,
    second: &mut usize,
    start: &mut usize,
    length: &mut usize,
) -> u32
    ensures { record { number = result; second = second.new; start = start.new; length = length.new }
        ≡ line_report (located sheet.now network.now number line) }
{
    cellmapper::cellmapper_line(sheet, network, number, line, second, start, length)
}

#[unsafe(no_mangle)]
pub extern "C" fn cellmapper_pla_table(
    pla: &[u8],
    board: &[u8],
    output: usize,
    buffer: &mut [u8],
    line: &mut usize,
    written: &mut usize,
) -> u32
    ensures written_after { record { number = result; line = line.new; written = written.new }
        ≡ table_report (table_of (examine pla.now board.now) output buffer.old).answer }
    ensures buffer_after { buffer.new ≡ (table_of (examine pla.now board.now) output buffer.old).buffer }
{
    cellmapper::cellmapper_pla_table(pla, board, output, buffer, line, written)
}

#[unsafe(no_mangle)]
pub extern "C" fn cellmapper_pla_map(
    pla: &[u8],
    board: &[u8],
    buffer: &mut [u8],
    line: &mut usize,
    cells: &mut usize,
    length: &mut usize,
) -> u32
    ensures { ReportedMap (examine pla.now board.now) buffer.old
        (record { number = result; line = line.new; cells = cells.new; length = length.new }) buffer.new }
{
    cellmapper::cellmapper_pla_map(pla, board, buffer, line, cells, length)
}

#[unsafe(no_mangle)]
pub extern "C" fn cellmapper_pla_cause(pla: &[u8], board: &[u8], outputs: &mut usize) -> u32
    ensures value { result ≡ 0 }
    ensures reported_cause { ReportedCause (examine pla.now board.now) outputs.new }
{
    cellmapper::cellmapper_pla_cause(pla, board, outputs)
}

#[unsafe(no_mangle)]
pub extern "C" fn cellmapper_pla_check(
    pla: &[u8],
    board: &[u8],
    network: &[u8],
    line: &mut usize,
    differs: &mut usize,
    output: &mut usize,
    row: &mut usize,
) -> u32
    ensures { record { number = result; line = line.new; differs = differs.new; output = output.new; row = row.new }
        ≡ check_report (check_of (examine pla.now board.now) network.now) }
{
    cellmapper::cellmapper_pla_check(pla, board, network, line, differs, output, row)
}
