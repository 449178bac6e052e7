// Document 01's refusals 1 to 7, each with its example, others under the same condition and the order of the conditions, and what is accepted on the
// other side. After a refusal the lent buffer, the lent list and the watch are as before. Refusal 8 is the program's own.
ghost use Rattle.std.specs.Prelude.{◌≤◌};

use crate::{Tally, UNTOUCHED, UNWRITTEN, is_list, is_untouched, refusal};
use finder::Watch;
use runs::Ending;

// The sheet of `a`, and one that is wrong in its target.
const SHEET: [u8; 5] = [1, 97, 0, 1, 1];

const WRONG: [u8; 5] = [1, 97, 0, 1, 2];

// Whether preparing in so many bytes is refused with a number, and the buffer is as before.
pub fn prepare_refuses(number: u32, code: &[u8], room: usize) -> bool
    requires { room ≤ 20005 }
{
    let mut buffer = [UNTOUCHED; 20005];
    refusal(sheets::prepare(code, &mut buffer[..room])) == number && is_untouched(&buffer)
}

// Whether preparing in so many bytes answers a length, and the byte behind it is as before.
fn prepare_answers(length: usize, code: &[u8], room: usize) -> bool
    requires { room ≤ 768 }
{
    let mut buffer = [UNTOUCHED; 768];
    sheets::prepare(code, &mut buffer[..room]) == Ok(length as u64)
        && buffer.get(length) == Some(&UNTOUCHED)
}

// A watch of four numbers.
fn watch_of(state: u32, taken: u32, hits: u32, compares: u64) -> Watch {
    Watch {
        state,
        taken,
        hits,
        compares,
    }
}

// Whether feeding is refused with a number, and a list of so many places is as before.
fn feed_refuses(number: u32, sheet: &[u8], watch: Watch, piece: &[u8], room: usize) -> bool
    requires { room ≤ 2 }
{
    let mut list = [UNWRITTEN; 2];
    refusal(finder::feed(sheet, watch, piece, &mut list[..room])) == number && is_list(&list, &[])
}

// Whether feeding with a list of 1 is not refused, and answers a watch and writes these places.
fn feed_answers(after: Watch, places: &[u32], sheet: &[u8], watch: Watch, piece: &[u8]) -> bool {
    let mut list = [UNWRITTEN; 1];
    let Ok(fed) = finder::feed(sheet, watch, piece, &mut list) else {
        return false;
    };
    fed.ending == Ending::PieceDone && fed.watch == after && is_list(&list, places)
}

// Refusals of a code or a length: 1, 2 and 3, in this order.
fn refused_codes(t: &mut Tally) {
    let many = [97u8; 4001];
    t.add(prepare_refuses(1, b"", 20005));
    t.add(prepare_refuses(1, b"", 0));
    t.add(refusal(codes::byte_ceiling(b"")) == 1);
    t.add(refusal(codes::total_ceiling(0, 1)) == 1);
    t.add(prepare_refuses(2, &many, 20005));
    t.add(prepare_refuses(2, &many, 0));
    t.add(refusal(codes::byte_ceiling(&many)) == 2);
    t.add(refusal(codes::total_ceiling(4001, 1)) == 2);
    t.add(refusal(codes::total_ceiling(4294967295, 0)) == 2);
    t.add(prepare_refuses(3, b"aab", 10));
    t.add(prepare_refuses(3, b"aab", 0));
    t.add(prepare_refuses(3, &many[..255], 766));
}

// Refusal 4, of a buffer that does not begin with a sheet.
fn refused_sheets(t: &mut Tally) {
    let open = Watch::open();
    t.add(feed_refuses(4, &WRONG, open, b"a", 1));
    t.add(feed_refuses(4, b"", open, b"a", 1));
    t.add(feed_refuses(4, b"\x00\x00", open, b"a", 1));
    t.add(feed_refuses(4, b"\x01\x61\x00\x01", open, b"a", 1));
    t.add(feed_refuses(4, b"\x02\x61\x61\x00\x01\x02\x01\x02", open, b"a", 1));
    t.add(feed_refuses(4, &WRONG, watch_of(2, 4294967295, 0, 0), b"a", 0));
}

// Refusal 5, of a watch that is unfit for the sheet.
fn refused_watches(t: &mut Tally) {
    t.add(feed_refuses(5, &SHEET, watch_of(1, 0, 0, 0), b"a", 1));
    t.add(feed_refuses(5, &SHEET, watch_of(2, 2, 0, 0), b"a", 1));
    t.add(feed_refuses(5, &SHEET, watch_of(0, 1, 2, 0), b"a", 1));
    t.add(feed_refuses(5, &SHEET, watch_of(0, 1, 0, 3), b"a", 1));
    t.add(feed_refuses(5, &SHEET, watch_of(2, 4294967295, 0, 0), b"a", 0));
}

// All refusals; the last are 6 and 7, of a list of no places and of a text that is too long.
pub fn refused() -> Tally {
    let last = watch_of(0, 4294967295, 0, 0);
    let mut t = Tally::new();
    refused_codes(&mut t);
    refused_sheets(&mut t);
    refused_watches(&mut t);
    t.add(feed_refuses(6, &SHEET, Watch::open(), b"a", 0));
    t.add(feed_refuses(6, &SHEET, Watch::open(), b"", 0));
    t.add(feed_refuses(6, &SHEET, last, b"a", 0));
    t.add(feed_refuses(7, &SHEET, last, b"a", 1));
    t.add(feed_refuses(7, &SHEET, watch_of(0, 4294967294, 0, 0), b"aa", 2));
    t
}

// The limits and a new watch; codes and lengths that are accepted on the other side, with the total ceiling's examples.
fn accepted_codes(t: &mut Tally) {
    let many = [97u8; 255];
    t.add(Watch::LONGEST_CODE == 4000 && Watch::LONGEST_TEXT == 4294967295);
    t.add(Watch::open() == watch_of(0, 0, 0, 0));
    t.add(prepare_answers(513, &many, 767));
    t.add(codes::byte_ceiling(&many) == Ok(1));
    t.add(codes::total_ceiling(255, 255) == Ok(509));
    t.add(codes::total_ceiling(255, 256) == Ok(510));
    t.add(codes::total_ceiling(255, 4294967295) == Ok(8573091581));
    t.add(prepare_answers(10, b"aab", 11));
}

// What is accepted on the other side of each condition: after the codes, bytes behind a sheet, watches that are just fit, a list of 1,
// and texts that are just short enough.
pub fn accepted() -> Tally {
    let open = Watch::open();
    let one = watch_of(1, 1, 1, 1);
    let behind = b"\x01\x61\x00\x01\x01\xff";
    let before_last = watch_of(0, 4294967294, 0, 0);
    let last = watch_of(1, 4294967295, 1, 1);
    let mut t = Tally::new();
    accepted_codes(&mut t);
    t.add(feed_answers(one, &[0], behind, open, b"a"));
    t.add(feed_answers(
        watch_of(1, 2, 1, 1),
        &[1],
        &SHEET,
        watch_of(1, 1, 0, 0),
        b"a",
    ));
    t.add(feed_answers(
        watch_of(0, 2, 1, 3),
        &[],
        &SHEET,
        watch_of(0, 1, 1, 2),
        b"z",
    ));
    t.add(feed_answers(one, &[0], &SHEET, open, b"a"));
    t.add(feed_answers(last, &[4294967294], &SHEET, before_last, b"a"));
    t.add(feed_answers(last, &[], &SHEET, last, b""));
    t
}
