// The codes of a board as they are handed over: their lengths, and their bytes one after the other.
ghost use Rattle.std.specs.Prelude.{◌≡◌, ◌*◌, ◌≤◌, IfOk, length};
ghost use Rattle.automaton.specs.Costs.{sum};
ghost use Rattle.runs.specs.Refusals.{refusal_of};
ghost use Rattle.boards.specs.Board.{no_board, list_refusal};

use crate::{MOST_BYTES, MOST_CODES};
use codes::{LONGEST, has_control};
use runs::Refusal;

// Codes that a board can have, unless one of them stands there twice; the two bounds follow, and are what most functions need of it.
#[derive(Clone, Copy)]
pub(crate) struct Codes<'a> {
    pub(crate) lengths: &'a [u32],
    pub(crate) bytes: &'a [u8],
    ghost listed: { list_refusal lengths.now bytes.now ≡ 0 },
    ghost codes_few: { length lengths.now ≤ 64 },
    ghost bytes_few: { length bytes.now ≤ 2000 },
}

impl<'a> Codes<'a> {
    // The codes, or why a board cannot have them.
    pub(crate) fn new(lengths: &'a [u32], bytes: &'a [u8]) -> Result<Codes<'a>, Refusal>
        ensures refusal { refusal_of result ≡ list_refusal lengths.now bytes.now }
        ensures ok { IfOk result (λ codes. (codes.lengths.now ≡ lengths.now) × (codes.bytes.now ≡ bytes.now)) }
    {
        check_list(lengths, bytes)?;
        Ok(Codes { lengths, bytes })
    }
}

// What the lengths of at most 64 codes add up to.
pub(crate) fn add_up(lengths: &[u32]) -> usize
    requires { length lengths.now ≤ 64 }
    ensures all { result ≡ sum lengths.now }
    ensures few { result ≤ 4294967295 * length lengths.now }
{
    let mut n = 0;
    for &length in lengths {
        n += length as usize;
    }
    n
}

// Whether there are no codes, too many codes or bytes, or lengths that do not add up to the bytes.
fn is_no_board(lengths: &[u32], bytes: &[u8]) -> bool
    ensures { result ≡ no_board lengths.now bytes.now }
{
    let count = lengths.len();
    if count == 0 || MOST_CODES < count || MOST_BYTES < bytes.len() {
        return true;
    }
    add_up(lengths) != bytes.len()
}

// Refuses codes, handed over as lengths and bytes, for all but one that stands there twice.
pub(crate) fn check_list(lengths: &[u32], bytes: &[u8]) -> Result<(), Refusal>
    ensures { refusal_of result ≡ list_refusal lengths.now bytes.now }
{
    if lengths.contains(&0) {
        return Err(Refusal::EmptyCode);
    }
    if lengths.iter().any(|&length| LONGEST < length) {
        return Err(Refusal::LongCode);
    }
    if is_no_board(lengths, bytes) {
        return Err(Refusal::UnfitCodes);
    }
    if has_control(bytes) {
        return Err(Refusal::ControlByte);
    }
    Ok(())
}
