// C entries over preparing, joining and feeding boards, in numbers as those of a single code.
ghost use Rattle.std.specs.Prelude.{◌≡◌};
ghost use Rattle.runs.specs.Answers.{answer_of};
ghost use Rattle.boards.specs.Entry.{lent};
ghost use Rattle.entries.specs.Boards.{BoardTold, JoinedTold, board_watch, board_numbers, hit_numbers, HitsTold};

use crate::PreparedNumbers;
use boards::{Watch, feed, join, prepare};
use runs::{Feeding, Refusal};

// What feeding a board answers: the watch, the hits written and the bytes taken in this call, the refusal's number (0 for none), and whether a list is full
// with bytes of the piece left (1) or not (0).
#[repr(C)]
#[derive(Clone, Copy)]
pub struct HitNumbers {
    pub state: u32,
    pub taken: u32,
    pub hits: u64,
    pub written: u64,
    pub read: u32,
    pub refusal: u32,
    pub full: u32,
}

// A watch in numbers, of a call that took and wrote nothing.
impl From<Watch> for HitNumbers {
    ghost from_gives = { λ watch numbers. numbers ≡ board_numbers watch };

    fn from(watch: Watch) -> HitNumbers {
        HitNumbers {
            state: watch.state,
            taken: watch.taken,
            hits: watch.hits,
            written: 0,
            read: 0,
            refusal: 0,
            full: 0,
        }
    }
}

// An answer of feeding in numbers: a refusal leaves the watch as it was.
fn hit_numbers(watch: Watch, answer: Result<Feeding<Watch, u64>, Refusal>) -> HitNumbers
    ensures { result ≡ hit_numbers (answer_of watch answer) }
{
    match answer {
        Ok(fed) => HitNumbers {
            written: fed.written,
            read: fed.taken,
            full: u32::from(fed.ending.is_full()),
            ..HitNumbers::from(fed.watch)
        },
        Err(refusal) => HitNumbers {
            refusal: refusal.number(),
            ..HitNumbers::from(watch)
        },
    }
}

// Prepares the board of codes.
#[unsafe(no_mangle)]
pub extern "C" fn entries_prepare_board(
    lengths: &[u32],
    bytes: &[u8],
    buffer: &mut [u8],
) -> PreparedNumbers
    ensures { BoardTold lengths.now bytes.now result buffer.old buffer.new }
{
    PreparedNumbers::from(prepare(lengths, bytes, buffer))
}

// Joins two boards.
#[unsafe(no_mangle)]
pub extern "C" fn entries_join_boards(
    first: &[u8],
    second: &[u8],
    buffer: &mut [u8],
) -> PreparedNumbers
    ensures { JoinedTold first.now second.now result buffer.old buffer.new }
{
    PreparedNumbers::from(join(first, second, buffer))
}

// Feeds a piece of text to a board, with the watch of these three numbers.
#[unsafe(no_mangle)]
pub extern "C" fn entries_feed_board(
    board: &[u8],
    state: u32,
    taken: u32,
    hits: u64,
    piece: &[u8],
    places: &mut [u32],
    numbers: &mut [u32],
) -> HitNumbers
    ensures { HitsTold board.now (board_watch state taken hits) (lent piece.now places.old numbers.old) result
        (lent piece.now places.new numbers.new) }
{
    let watch = Watch {
        state: state,
        taken: taken,
        hits: hits,
    };
    hit_numbers(watch, feed(board, watch, piece, places, numbers))
}
