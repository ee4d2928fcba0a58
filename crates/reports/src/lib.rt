// What a caller in C is told of each answer of Table, Map, Check and Export: the refusal's number, 0 where no question was answered
// "no", and a value for each out-parameter. Rests on design, mapper, checker and blif for what the answers say, and calls none of
// them.
#![tactic(auto)]

ghost use Rattle.std.specs.Prelude.{◌≡◌};
ghost use Rattle.design.specs.Answer.{table_answer};
ghost use Rattle.mapper.specs.Answer.{map_answer, cause_answer};
ghost use Rattle.checker.specs.Answer.{checked_of};
ghost use Rattle.blif.specs.Answer.{export_answer};
ghost use Rattle.reports.specs.Report.{table_report, map_report, check_report, export_report, cause_report};

use comparing::Comparison;
use mapper::Mapped;
use refusal::Refusal;

// What a caller of Table is told.
#[derive(Drop)]
pub struct TableReport {
    pub number: u32,
    pub line: usize,
    pub written: usize,
}

// What a caller of Map is told.
#[derive(Drop)]
pub struct MapReport {
    pub number: u32,
    pub line: usize,
    pub cells: usize,
    pub length: usize,
}

// What a caller of Check is told.
#[derive(Drop)]
pub struct CheckReport {
    pub number: u32,
    pub line: usize,
    pub differs: usize,
    pub output: usize,
    pub row: usize,
}

// What a caller of Export is told.
#[derive(Drop)]
pub struct ExportReport {
    pub number: u32,
    pub line: usize,
    pub length: usize,
}

pub fn report_table(t: Result<usize, Refusal>) -> TableReport
    ensures { result ≡ table_report (table_answer t) }
{
    match t {
        Ok(written) => TableReport {
            number: 0,
            line: 0,
            written,
        },
        Err(r) => TableReport {
            number: r.question.number(),
            line: r.line,
            written: 0,
        },
    }
}

pub fn report_map(m: Result<Mapped, Refusal>) -> MapReport
    ensures { result ≡ map_report (map_answer m) }
{
    match m {
        Ok(Mapped { cells, length }) => MapReport {
            number: 0,
            line: 0,
            cells,
            length,
        },
        Err(r) => MapReport {
            number: r.question.number(),
            line: r.line,
            cells: 0,
            length: 0,
        },
    }
}

pub fn report_check(c: Result<Comparison, Refusal>) -> CheckReport
    ensures { result ≡ check_report (checked_of c) }
{
    match c {
        Ok(Comparison::Same) => CheckReport {
            number: 0,
            line: 0,
            differs: 0,
            output: 0,
            row: 0,
        },
        Ok(Comparison::Differs { output, row }) => CheckReport {
            number: 0,
            line: 0,
            differs: 1,
            output,
            row,
        },
        Err(r) => CheckReport {
            number: r.question.number(),
            line: r.line,
            differs: 0,
            output: 0,
            row: 0,
        },
    }
}

pub fn report_export(e: Result<usize, Refusal>) -> ExportReport
    ensures { result ≡ export_report (export_answer e) }
{
    match e {
        Ok(length) => ExportReport {
            number: 0,
            line: 0,
            length,
        },
        Err(r) => ExportReport {
            number: r.question.number(),
            line: r.line,
            length: 0,
        },
    }
}

// What a caller is told of the cause of a refusal by 8: the outputs as a number, 0 for none.
pub fn report_cause(c: Option<usize>) -> usize
    ensures { result ≡ cause_report (cause_answer c) }
{
    c.unwrap_or(0)
}
