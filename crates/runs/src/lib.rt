// Reading a text in pieces, whatever reads it: a piece is taken until it ends or the list is full, and each call gets the state that the one before it
// answered. This crate has definitions and theorems, and what every reader answers: what it fed, or why it refused.
#![tactic(auto)]

ghost use Rattle.std.specs.Prelude.{◌≡◌, cond};
ghost use Rattle.runs.specs.Reading.{ending_full};
ghost use Rattle.runs.specs.Answers.{ended};
ghost use Rattle.runs.specs.Refusals.{refusal_number};

// How a call ended: the piece is done, or the list is full and bytes of the piece are left.
#[derive(Clone, Copy, PartialEq, Eq)]
pub enum Ending {
    PieceDone,
    ListFull,
}

impl Ending {
    // Whether the list is full and bytes of the piece are left.
    pub fn is_full(self) -> bool
        ensures { cond result 1 0 ≡ ending_full (ended self) }
    {
        match self {
            Ending::PieceDone => false,
            Ending::ListFull => true,
        }
    }
}

// What a feeding answers: the new watch (the state of a scan), the bytes taken and what was written in this call, and the ending.
#[derive(Clone, Copy)]
pub struct Feeding<W, N> {
    pub watch: W,
    pub taken: u32,
    pub written: N,
    pub ending: Ending,
}

// Why an entry point refuses what it is handed.
#[derive(Clone, Copy, PartialEq, Eq)]
pub enum Refusal {
    EmptyCode,
    LongCode,
    ShortBuffer,
    NotPrepared,
    UnfitWatch,
    ShortList,
    LongText,
    WrongLine,
    UnfitCodes,
    CodeTwice,
    ControlByte,
}

impl Refusal {
    // Its number in the table.
    pub fn number(self) -> u32
        ensures { result ≡ refusal_number self }
    {
        match self {
            Refusal::EmptyCode => 1,
            Refusal::LongCode => 2,
            Refusal::ShortBuffer => 3,
            Refusal::NotPrepared => 4,
            Refusal::UnfitWatch => 5,
            Refusal::ShortList => 6,
            Refusal::LongText => 7,
            Refusal::WrongLine => 8,
            Refusal::UnfitCodes => 10,
            Refusal::CodeTwice => 11,
            Refusal::ControlByte => 13,
        }
    }
}
