// Request 102: the board of he, she, hers and his, the codes of Aho and Corasick's paper, with `ushers` as the text; and its refusals, on both sides of their
// conditions and in their order. After a refusal what was lent and the watch are as before.
ghost use Rattle.std.specs.Prelude.{◌≤◌, ◌<◌};

use crate::{Tally, UNTOUCHED, UNWRITTEN, is_list, is_untouched, refusal, starts_with_just};
use boards::Watch;
use runs::{Ending, Refusal};

const LENGTHS: [u32; 4] = [2, 3, 4, 3];

const CODES: [u8; 12] = [104, 101, 115, 104, 101, 104, 101, 114, 115, 104, 105, 115];

// A letter of which there are more than a board can have.
const MANY: [u8; 2001] = [97; 2001];

const ONES: [u32; 65] = [1; 65];

// Prepares a board. It is never inlined, so that what preparing works with takes no stack while a board is fed.
#[inline(never)]
fn prepared(lengths: &[u32], codes: &[u8], buffer: &mut [u8]) -> Result<u64, Refusal> {
    boards::prepare(lengths, codes, buffer)
}

// Whether codes have these bytes as their board, in just enough room, and the byte behind them is as before. What prepares differs from that of a sheet, and
// a closure of it would be as long as the function.
fn has_board(lengths: &[u32], codes: &[u8], bytes: &[u8]) -> bool {
    let mut buffer = [UNTOUCHED; 32768];
    prepared(lengths, codes, &mut buffer) == Ok(bytes.len() as u64)
        && starts_with_just(&buffer, bytes)
}

// Whether preparing in so many bytes is refused with a number, and the buffer is as before: again not by a closure.
fn prepare_refuses(number: u32, lengths: &[u32], bytes: &[u8], room: usize) -> bool
    requires { room ≤ 32768 }
{
    let mut buffer = [UNTOUCHED; 32768];
    refusal(prepared(lengths, bytes, &mut buffer[..room])) == number && is_untouched(&buffer)
}

// A watch of three numbers.
fn watch_of(state: u32, taken: u32, hits: u64) -> Watch {
    Watch { state, taken, hits }
}

// Whether feeding, with lists of so many spots, answers this watch, writes these hits and ends so.
fn feeds(
    watch: Watch,
    piece: &[u8],
    room: usize,
    after: Watch,
    hits: &[u32],
    codes: &[u32],
    ending: Ending,
) -> bool
    requires { room ≤ 8 }
{
    let mut board = [UNTOUCHED; 32768];
    let size = prepared(&LENGTHS, &CODES, &mut board);
    let mut places = [UNWRITTEN; 8];
    let mut numbers = [UNWRITTEN; 8];
    let Ok(fed) = boards::feed(
        &board,
        watch,
        piece,
        &mut places[..room],
        &mut numbers[..room],
    ) else {
        return false;
    };
    size.is_ok()
        && fed.watch == after
        && fed.ending == ending
        && is_list(&places, hits)
        && is_list(&numbers, codes)
}

// Whether feeding is refused with a number, with another byte at an index of the board, and lists of so many places and so many numbers.
fn feed_refuses(
    number: u32,
    i: usize,
    watch: Watch,
    piece: &[u8],
    place_room: usize,
    number_room: usize,
) -> bool
    requires { (i < 32768) × (place_room ≤ 8) × (number_room ≤ 8) }
{
    let mut board = [UNTOUCHED; 32768];
    let size = prepared(&LENGTHS, &CODES, &mut board);
    board[i] = 254;
    let mut places = [UNWRITTEN; 8];
    let mut numbers = [UNWRITTEN; 8];
    let fed = boards::feed(
        &board,
        watch,
        piece,
        &mut places[..place_room],
        &mut numbers[..number_room],
    );
    size.is_ok() && refusal(fed) == number && is_list(&places, &[]) && is_list(&numbers, &[])
}

// The board of `ab` and `b`, as docs/BOARD.md has it. Then the text, with that of the four codes: as one piece, in two, with lists of as many spots as there
// are codes, which are full after `ushe`, and at the longest text's end.
fn found(t: &mut Tally) {
    let open = Watch::open();
    let half = watch_of(4, 3, 0);
    let full = watch_of(5, 4, 2);
    let end = watch_of(9, 6, 3);
    let last = watch_of(5, 4294967294, 0);
    let after_last = watch_of(8, 4294967295, 0);
    let done = Ending::PieceDone;
    let bytes = b"\x02\x00\x02\x00\x01abb\x02\x00\x00\x00\x00\x00\x00\x00\x00\x03\x01\x00\x00\x02";
    t.add(has_board(&[2, 1], b"abb", bytes));
    t.add(feeds(open, b"ushers", 8, end, &[1, 2, 2], &[2, 1, 3], done));
    t.add(feeds(open, b"ush", 8, half, &[], &[], done));
    t.add(feeds(half, b"ers", 8, end, &[1, 2, 2], &[2, 1, 3], done));
    t.add(feeds(open, b"ushers", 4, full, &[1, 2], &[2, 1], Ending::ListFull));
    t.add(feeds(full, b"rs", 4, end, &[2], &[3], done));
    t.add(feeds(full, b"", 4, full, &[], &[], done));
    t.add(feeds(last, b"r", 4, after_last, &[], &[], done));
}

// Refusals of codes: 1, 2, 10, 13, 11 and 3, in this order.
fn refused_codes(t: &mut Tally) {
    t.add(prepare_refuses(1, &[2, 0], b"he", 32768));
    t.add(prepare_refuses(1, &[4001, 0], b"\x1f", 0));
    t.add(prepare_refuses(2, &[4001, 2], b"\x1f", 0));
    t.add(prepare_refuses(10, &[], b"", 32768));
    t.add(prepare_refuses(10, &ONES, &MANY[0..65], 0));
    t.add(prepare_refuses(10, &[2001], &MANY, 32768));
    t.add(prepare_refuses(10, &[2, 1], b"h\x1f", 0));
    t.add(prepare_refuses(10, &[2, 1], b"hehe", 32768));
    t.add(prepare_refuses(13, &[2, 2], b"h\x1fh\x1f", 0));
    t.add(prepare_refuses(11, &[2, 2], b"hehe", 0));
    t.add(prepare_refuses(3, &LENGTHS, &CODES, 32767));
    t.add(prepare_refuses(3, &[2000], &MANY[0..2000], 0));
}

// All: after these, refusals of feeding: 4, 5, 6 and 7. Byte 6 of the codes is no state, since `h` is counted in `he`. Index 64 is behind the board.
pub fn board() -> Tally {
    let open = Watch::open();
    let last = watch_of(0, 4294967295, 0);
    let mut t = Tally::new();
    found(&mut t);
    refused_codes(&mut t);
    t.add(feed_refuses(4, 0, open, b"h", 4, 4));
    t.add(feed_refuses(4, 2, open, b"h", 4, 4));
    t.add(feed_refuses(4, 63, watch_of(13, 0, 0), b"h", 0, 0));
    t.add(feed_refuses(5, 64, watch_of(6, 6, 0), b"h", 4, 4));
    t.add(feed_refuses(5, 64, watch_of(13, 20, 0), b"h", 4, 4));
    t.add(feed_refuses(5, 64, watch_of(5, 2, 0), b"h", 4, 4));
    t.add(feed_refuses(5, 64, watch_of(0, 1, 65), b"h", 0, 0));
    t.add(feed_refuses(6, 64, open, b"", 3, 4));
    t.add(feed_refuses(6, 64, last, b"h", 4, 3));
    t.add(feed_refuses(7, 64, last, b"h", 4, 4));
    t
}
