// Feeding: one pass over a piece of text, from the watch answered before to the next one, and the places in a list.
ghost use Rattle.std.specs.Prelude.{◌≡◌, [], ◌∷◌, ◌+◌, length, IfOk};
ghost use Rattle.words.specs.Words.{same};
ghost use Rattle.automaton.specs.Arrows.{back_targets};
ghost use Rattle.runs.specs.Answers.{answer_of};
ghost use Rattle.runs.specs.Refusals.{refusal_of};
ghost use Rattle.sheets.specs.Sheet.{named};
ghost use Rattle.finder.specs.Feed.{completed};
ghost use Rattle.finder.specs.Entry.{lent, feed_refusal, FeedSays};
ghost use Rattle.finder.specs.Inside.{Ready, Written, Placing, Repeating, Repeated, Turning, Turned, Took};

use crate::sheet::Sheet;
use crate::{Led, Watch};
use runs::{Ending, Feeding, Refusal};

// What a turn of the loop over a piece has come to: where its bytes have led, and how many places it has written.
#[derive(Clone, Copy)]
struct Turn {
    led: Led,
    written: usize,
}

// Writes the place that the last of some bytes has completed to the list's start, if it has completed one: how many were written.
fn write_place(m: usize, before: u32, s: Led, places: &mut [u32]) -> usize
    requires { Placing m before s places.old }
    ensures { Written places.old (completed m s.state (before + s.at)) result places.new }
{
    if s.state == m {
        places[0] = before + (s.at as u32) - (m as u32);
        return 1;
    }
    0
}

// How many of the next `count` bytes are `byte`, in a row: a comparison for each and one for the byte behind them, if it is looked at. For each a place is
// written, one more than the last. It is never inlined: among other code its loop can begin where a processor takes 1.6 times as long for it.
#[inline(never)]
fn repeat(piece: &[u8], from: usize, count: usize, byte: u8, places: &mut [u32], last: u32) -> usize
    requires { Repeating piece.now from count places.old last }
    ensures { Repeated piece.now from count byte last places.old result places.new }
{
    for j in 0..count {
        if piece[from + j] != byte {
            return j;
        }
        places[j] = last + 1 + (j as u32);
    }
    count
}

impl Sheet<'_> {
    // Whether state m has one backward arrow alone, and it leads to m again.
    fn has_own_arrow(&self) -> bool
        ensures { result ≡ same (back_targets self.now (length self.now)) (length self.now ∷ []) }
    {
        let m = self.length();
        let start = self.targets_below(m);
        self.targets_below(m + 1) - start == 1 && self.target(start) == m
    }

    // A turn from state m where its one arrow leads to m again: the bytes that follow it, a place each, and the one that leads to 0, if it is looked at. Long
    // rows of one byte are about 4 times as fast by it.
    fn from_whole(&self, before: u32, piece: &[u8], i: usize, places: &mut [u32]) -> Turn
        requires { Turning self.now before (length self.now) piece.now i places.old
            × (back_targets self.now (length self.now) ≡ length self.now ∷ []) }
        ensures { Turned self.now piece.now before (length self.now) i places.old result places.new }
    {
        let m = self.length();
        let last = before + (i as u32) - (m as u32);
        let count = usize::min(piece.len() - i, places.len());
        let n = repeat(piece, i, count, self.label(m), places, last);
        if n < count {
            let led = Led {
                state: 0,
                cost: (n + 1) as u64,
                at: i + n + 1,
            };
            return Turn { led, written: n };
        }
        let led = Led {
            state: m,
            cost: n as u64,
            at: i + n,
        };
        Turn { led, written: n }
    }

    // One turn.
    fn take_turn(&self, before: u32, p: usize, piece: &[u8], i: usize, places: &mut [u32]) -> Turn
        requires { Turning self.now before p piece.now i places.old }
        ensures { Turned self.now piece.now before p i places.old result places.new }
    {
        let m = self.length();
        if p == m && self.has_own_arrow() {
            return self.from_whole(before, piece, i, places);
        }
        let led = self.advance(p, piece, i);
        let written = write_place(m, before, led, places);
        Turn { led, written }
    }

    // The bytes of a piece, until it ends or the list is full. Each turn goes on by as many bytes as it took: no `for`. From turn to turn only the state, the
    // cost and the two counts are kept: the whole watch, carried along, was slower.
    fn take_bytes(&self, watch: Watch, piece: &[u8], places: &mut [u32]) -> Feeding<Watch, u32>
        requires { Ready (length self.now) watch (length piece.now) }
        ensures { Took self.now watch (lent piece.now places.old) result (lent piece.now places.new) }
    {
        let mut state = watch.state as usize;
        let mut cost: u64 = 0;
        let mut i = 0;
        let mut k = 0;
        while i < piece.len() && k < places.len() {
            let t = self.take_turn(watch.taken, state, piece, i, &mut places[k..]);
            state = t.led.state;
            cost += t.led.cost;
            i = t.led.at;
            k += t.written;
        }
        let ending = if i < piece.len() {
            Ending::ListFull
        } else {
            Ending::PieceDone
        };
        let taken = i as u32;
        let written = k as u32;
        Feeding {
            watch: Watch {
                state: state as u32,
                taken: watch.taken + taken,
                hits: watch.hits + written,
                compares: watch.compares + cost,
            },
            taken,
            written,
            ending,
        }
    }
}

// The sheet of a buffer, if a feeding is not refused: by the buffer, the watch, and the lengths of the piece and of the list.
fn admit(buffer: &[u8], x: Watch, piece: usize, room: usize) -> Result<Sheet<'_>, Refusal>
    ensures refusal { refusal_of result ≡ feed_refusal buffer.now x piece room }
    ensures sheet { IfOk result (λ w. w ≡ named buffer.now) }
{
    let Some(sheet) = Sheet::read(buffer) else {
        return Err(Refusal::NotPrepared);
    };
    if !x.is_fit(sheet.length() as u32) {
        return Err(Refusal::UnfitWatch);
    }
    if room == 0 {
        return Err(Refusal::ShortList);
    }
    if ((Watch::LONGEST_TEXT - x.taken) as usize) < piece {
        return Err(Refusal::LongText);
    }
    Ok(sheet)
}

// Feeds a piece of text: with a sheet, whatever stands behind it, and the watch answered before. The places (the offsets of occurrences, counted
// from the opening) are written to the list's start, and the rest of the list stays. A refusal changes nothing.
pub fn feed(
    sheet: &[u8],
    watch: Watch,
    piece: &[u8],
    places: &mut [u32],
) -> Result<Feeding<Watch, u32>, Refusal>
    ensures { FeedSays sheet.now watch (lent piece.now places.old) (answer_of watch result) (lent piece.now places.new) }
{
    let sheet = admit(sheet, watch, piece.len(), places.len())?;
    Ok(sheet.take_bytes(watch, piece, places))
}
