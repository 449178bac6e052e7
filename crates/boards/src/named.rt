// The codes that a buffer names: as many lengths as its first byte tells, in two bytes each, then the bytes of the codes.
ghost use Rattle.std.specs.Prelude.{◌≡◌, false, ◌+◌, ◌*◌, ◌≤◌, IfNone, IfSome, length};
ghost use Rattle.boards.specs.Board.{named_lengths, named_bytes, begins};
ghost use Rattle.boards.specs.Naming.{LengthsRead, Names};

use crate::MOST_CODES;
use crate::given::{Codes, add_up, check_list};

// A buffer that names codes that a board can have, their number and lengths, and where their bytes end. The lengths are an array
// with how many are used, since no memory is asked for.
#[derive(Drop)]
pub(crate) struct Named<'a> {
    board: &'a [u8],
    lengths: [u32; 64],
    count: usize,
    end: usize,
    ghost names: { Names board.now lengths count end },
}

impl<'a> Named<'a> {
    // What a buffer names; none if a board cannot have such codes.
    pub(crate) fn read(board: &'a [u8]) -> Option<Named<'a>>
        ensures none { IfNone result (begins board.now ≡ false) }
        ensures some { IfSome result (λ named. named.board.now ≡ board.now) }
    {
        let count = usize::from(*board.first()?);
        if MOST_CODES < count {
            return None;
        }
        let start = 1 + 2 * count;
        if board.len() < start {
            return None;
        }
        let mut lengths = [0; 64];
        read_lengths(board, count, &mut lengths);
        let end = start + add_up(&lengths[..count]);
        if board.len() < end {
            return None;
        }
        if check_list(&lengths[..count], &board[start..end]).is_err() {
            return None;
        }
        Some(Named {
            board,
            lengths,
            count,
            end,
        })
    }

    // The codes.
    pub(crate) fn codes(&self) -> Codes<'_>
        ensures lengths { result.lengths.now ≡ named_lengths self.now.board.now }
        ensures bytes { result.bytes.now ≡ named_bytes self.now.board.now }
    {
        Codes {
            lengths: &self.lengths[..self.count],
            bytes: &self.board[1 + 2 * self.count..self.end],
        }
    }
}

// Reads k lengths of two bytes each from the buffer's second byte on.
fn read_lengths(board: &[u8], k: usize, lengths: &mut [u32; 64])
    requires { (1 + 2 * k ≤ length board.now) × (k ≤ 64) }
    ensures { LengthsRead board.now k lengths.new }
{
    for i in 0..k {
        lengths[i] = u32::from(u16::from_be_bytes([board[1 + 2 * i], board[2 + 2 * i]]));
    }
}
