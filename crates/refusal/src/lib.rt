// The questions of an examination that may be answered "no", and a refusal, which names such a question and the line. A caller in C is
// told the question's number. Rests on nothing.
#![tactic(auto)]

ghost use Rattle.std.specs.Prelude.{◌≡◌};
ghost use Rattle.refusal.specs.Number.{number_of};

// A question by what it asks about, in the order of the numbers 1 to 14.
#[derive(Clone, Copy, Debug, PartialEq, Eq)]
pub enum Question {
    // Of a design sheet.
    SheetBytes,
    Spelling,
    Ranges,
    NewNames,
    InputNames,
    // Of an operation on a valid design.
    OutputNumber,
    FewClasses,
    EnoughCells,
    BufferLength,
    // Of a network sheet beside a design.
    NetworkSpelling,
    NetworkLimits,
    // Of a panel that arrives as PLA.
    PlaSpelling,
    PlaRanges,
    PlaMarks,
}

// The question that was answered "no", and the line, counted from 1, or 0 where no line is to blame.
#[derive(Clone, Copy, Debug, PartialEq, Eq)]
pub struct Refusal {
    pub question: Question,
    pub line: usize,
}

impl Question {
    // The number by which a caller in C knows the question.
    pub fn number(self) -> u32
        ensures { result ≡ number_of self }
    {
        match self {
            Question::SheetBytes => 1,
            Question::Spelling => 2,
            Question::Ranges => 3,
            Question::NewNames => 4,
            Question::InputNames => 5,
            Question::OutputNumber => 6,
            Question::FewClasses => 7,
            Question::EnoughCells => 8,
            Question::BufferLength => 9,
            Question::NetworkSpelling => 10,
            Question::NetworkLimits => 11,
            Question::PlaSpelling => 12,
            Question::PlaRanges => 13,
            Question::PlaMarks => 14,
        }
    }
}
