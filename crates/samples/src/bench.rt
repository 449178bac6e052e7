// Document 01's bench samples and its errors near at hand. Each is a call with the document's bytes and numbers.
// Those that it marks P are also proved, in the finder's table of samples; tests/beside.c runs the same codes and texts beside a naive search.
ghost use Rattle.std.specs.Prelude.{◌≤◌, length};

use crate::{Tally, UNTOUCHED, UNWRITTEN, is_list, starts_with_just};
use finder::Watch;
use runs::{Ending, Feeding, Refusal};

// Whether the code's sheet is these bytes, and the byte behind them is as before.
fn has_sheet(code: &[u8], bytes: &[u8]) -> bool {
    let mut sheet = [UNTOUCHED; 32];
    sheets::prepare(code, &mut sheet) == Ok(bytes.len() as u64) && starts_with_just(&sheet, bytes)
}

// Whether these are the byte ceiling of a code and the total ceiling for so many bytes.
fn has_ceilings(code: &[u8], n: usize, byte: u64, total: u64) -> bool
    requires { (length code.now ≤ 4294967295) × (n ≤ 4294967295) }
{
    codes::byte_ceiling(code) == Ok(byte)
        && codes::total_ceiling(code.len() as u32, n as u32) == Ok(total)
}

// Feeds a piece to a watch, with the code's sheet.
fn feed(
    code: &[u8],
    watch: Watch,
    piece: &[u8],
    list: &mut [u32],
) -> Result<Feeding<Watch, u32>, Refusal> {
    let mut sheet = [UNTOUCHED; 32];
    sheets::prepare(code, &mut sheet)?;
    finder::feed(&sheet, watch, piece, list)
}

// Whether a text, fed as one piece, has these places and takes so many comparisons. A sample's parts are parameters, since each is a literal in its line below.
fn finds(code: &[u8], text: &[u8], places: &[u32], compares: u64) -> bool {
    let mut list = [UNWRITTEN; 8];
    let Ok(fed) = feed(code, Watch::open(), text, &mut list) else {
        return false;
    };
    is_list(&list, places)
        && is_counted(fed.watch, text, places, compares)
        && fed.taken == fed.watch.taken
        && fed.written == fed.watch.hits
        && fed.ending == Ending::PieceDone
}

// Whether a watch has counted the bytes of a text, these places and so many comparisons.
fn is_counted(watch: Watch, text: &[u8], places: &[u32], compares: u64) -> bool {
    watch.taken as usize == text.len()
        && watch.hits as usize == places.len()
        && watch.compares == compares
}

// The same, and whether these are the byte ceiling and the total ceiling.
fn finds_within(
    code: &[u8],
    text: &[u8],
    places: &[u32],
    compares: u64,
    byte: u64,
    total: u64,
) -> bool
    requires { (length code.now ≤ 4294967295) × (length text.now ≤ 4294967295) }
{
    finds(code, text, places, compares) && has_ceilings(code, text.len(), byte, total)
}

// Whether a list of 1 ends the call with the code `aa` and the piece `aaaa` after 2 bytes, at place 0.
fn fills_list() -> bool {
    let mut list = [UNWRITTEN; 1];
    let Ok(fed) = feed(b"aa", Watch::open(), b"aaaa", &mut list) else {
        return false;
    };
    let after = Watch {
        state: 2,
        taken: 2,
        hits: 1,
        compares: 2,
    };
    is_list(&list, &[0])
        && fed.watch == after
        && fed.taken == 2
        && fed.written == 1
        && fed.ending == Ending::ListFull
}

// Whether a text cut in two at an offset has these places, those of the second part behind those of the first, and takes so many comparisons.
fn finds_cut(code: &[u8], text: &[u8], offset: usize, places: &[u32], compares: u64) -> bool
    requires { offset ≤ length text.now }
{
    let (first, second) = text.split_at(offset);
    let mut list = [UNWRITTEN; 8];
    let mut more = [UNWRITTEN; 8];
    let Ok(before) = feed(code, Watch::open(), first, &mut list) else {
        return false;
    };
    let Ok(after) = feed(code, before.watch, second, &mut more) else {
        return false;
    };
    let Some((front, back)) = places.split_at_checked(before.written as usize) else {
        return false;
    };
    list.starts_with(front)
        && more.starts_with(back)
        && is_counted(after.watch, text, places, compares)
}

// A text cut in two at every offset.
fn cut_everywhere(tally: &mut Tally, code: &[u8], text: &[u8], places: &[u32], compares: u64) {
    for offset in 0..=text.len() {
        tally.add(finds_cut(code, text, offset, places, compares));
    }
}

// The sheets.
pub fn sheets() -> Tally {
    let mut t = Tally::new();
    t.add(has_sheet(b"a", b"\x01\x61\x00\x01\x01"));
    t.add(has_sheet(b"aaa", b"\x03\x61\x61\x61\x00\x00\x00\x01\x03"));
    t.add(has_sheet(b"aab", b"\x03\x61\x61\x62\x00\x00\x01\x02\x02\x01"));
    t.add(has_sheet(
        b"abaab",
        b"\x05\x61\x62\x61\x61\x62\x00\x01\x01\x02\x03\x04\x01\x02\x01\x03",
    ));
    t
}

// The searches, with their ceilings. `abaz` takes 7 comparisons and `aba` 4: the `z` costs 3, the byte ceiling.
pub fn searches() -> Tally {
    let mut t = Tally::new();
    t.add(finds_within(b"aa", b"aaaa", &[0, 1, 2], 4, 1, 6));
    t.add(finds_within(b"ab", b"abab", &[0, 2], 6, 2, 6));
    t.add(finds_within(b"abac", b"abaz", &[], 7, 3, 7));
    t.add(finds(b"abac", b"aba", &[], 4));
    t.add(finds_within(b"abaab", b"abaababaab", &[0, 5], 15, 2, 18));
    t.add(fills_list());
    t.add(finds_within(b"abaab", b"", &[], 0, 2, 0));
    t.add(has_ceilings(b"aaaa", 0, 1, 0));
    t
}

// The errors near at hand. `ab` on `aaa` costs 3; the sheet of `aa` has no arrow in state 1, where the label would be the forward one.
pub fn errors() -> Tally {
    let mut t = Tally::new();
    t.add(finds(b"aa", b"aaaa", &[0, 1, 2], 4));
    t.add(finds(b"ab", b"aab", &[1], 4));
    t.add(finds_within(b"ab", b"aaa", &[], 3, 2, 4));
    t.add(has_sheet(b"aa", b"\x02\x61\x61\x00\x00\x01\x02"));
    cut_everywhere(&mut t, b"aa", b"aaaa", &[0, 1, 2], 4);
    cut_everywhere(&mut t, b"abaab", b"abaababaab", &[0, 5], 15);
    t
}
