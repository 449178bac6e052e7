// C entries over preparing and feeding, for the tests and the benchmark: numbers in place of the watch and of the Result that is answered.
#![tactic(auto)]

ghost use Rattle.std.specs.Prelude.{◌≡◌};
ghost use Rattle.runs.specs.Answers.{answer_of};
ghost use Rattle.codes.specs.Refusals.{told};
ghost use Rattle.finder.specs.Entry.{lent};
ghost use Rattle.entries.specs.Numbers.{prepared_numbers, PrepareTold, watch_from, watch_numbers, fed_numbers, FeedTold};

use finder::{Watch, feed};
use runs::{Feeding, Refusal};
use sheets::prepare;

mod board;

// What preparing answers: the length of the sheet or board, or 0 and the refusal's number. These are numbers, and no Result, since C reads them.
#[repr(C)]
#[derive(Clone, Copy)]
pub struct PreparedNumbers {
    pub length: u64,
    pub refusal: u32,
}

// What feeding answers: the watch, the bytes taken and the places written in this call, the refusal's number (0 for none), and whether the list is
// full with bytes of the piece left (1) or not (0).
#[repr(C)]
#[derive(Clone, Copy)]
pub struct FedNumbers {
    pub state: u32,
    pub taken: u32,
    pub hits: u32,
    pub read: u32,
    pub compares: u64,
    pub written: u32,
    pub refusal: u32,
    pub full: u32,
}

impl From<Result<u64, Refusal>> for PreparedNumbers {
    ghost from_gives = { λ answer numbers. numbers ≡ prepared_numbers (told answer) };

    fn from(answer: Result<u64, Refusal>) -> PreparedNumbers {
        match answer {
            Ok(length) => PreparedNumbers { length, refusal: 0 },
            Err(refusal) => PreparedNumbers {
                length: 0,
                refusal: refusal.number(),
            },
        }
    }
}

// A watch in numbers, of a call that took and wrote nothing.
impl From<Watch> for FedNumbers {
    ghost from_gives = { λ watch numbers. numbers ≡ watch_numbers watch };

    fn from(watch: Watch) -> FedNumbers {
        FedNumbers {
            state: watch.state,
            taken: watch.taken,
            hits: watch.hits,
            read: 0,
            compares: watch.compares,
            written: 0,
            refusal: 0,
            full: 0,
        }
    }
}

// An answer of feeding in numbers: a refusal leaves the watch as it was. That of a board, in board.rt, has other fields for C, so there is one for each.
fn fed_numbers(watch: Watch, answer: Result<Feeding<Watch, u32>, Refusal>) -> FedNumbers
    ensures { result ≡ fed_numbers (answer_of watch answer) }
{
    match answer {
        Ok(fed) => FedNumbers {
            read: fed.taken,
            written: fed.written,
            full: u32::from(fed.ending.is_full()),
            ..FedNumbers::from(fed.watch)
        },
        Err(refusal) => FedNumbers {
            refusal: refusal.number(),
            ..FedNumbers::from(watch)
        },
    }
}

// Prepares the sheet of a code.
#[unsafe(no_mangle)]
pub extern "C" fn entries_prepare(code: &[u8], buffer: &mut [u8]) -> PreparedNumbers
    ensures { PrepareTold code.now result buffer.old buffer.new }
{
    PreparedNumbers::from(prepare(code, buffer))
}

// Feeds a piece of text, with the watch of these four numbers.
#[unsafe(no_mangle)]
pub extern "C" fn entries_feed(
    sheet: &[u8],
    state: u32,
    taken: u32,
    hits: u32,
    compares: u64,
    piece: &[u8],
    places: &mut [u32],
) -> FedNumbers
    ensures { FeedTold sheet.now (watch_from state taken hits compares) (lent piece.now places.old) result
        (lent piece.now places.new) }
{
    let watch = Watch {
        state: state,
        taken: taken,
        hits: hits,
        compares: compares,
    };
    fed_numbers(watch, feed(sheet, watch, piece, places))
}
