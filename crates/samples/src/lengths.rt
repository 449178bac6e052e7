// Request 103: codes on both sides of 255 bytes, the last with a short sheet, and of 4,000, the longest. A code of more than 255 bytes has a wide sheet: a 0
// byte, its length in two bytes, the code, and counts and targets in two bytes each.
ghost use Rattle.std.specs.Prelude.{◌≤◌, ◌<◌};

use crate::refusals::prepare_refuses;
use crate::{Tally, UNTOUCHED, UNWRITTEN, is_list, refusal};
use finder::Watch;
use runs::Ending;

// A byte more than the longest code has, and a text in which it would be found twice.
const MANY: [u8; 4002] = [97; 4002];

// Whether the code of m letters `a` has a sheet of so many bytes, with these first three, and nothing behind it is changed; and whether it is found
// twice in one letter more, at a comparison for each.
fn is_found(m: usize, length: usize, first: &[u8]) -> bool
    requires { m ≤ 4001 }
{
    let mut sheet = [UNTOUCHED; 20006];
    let size = sheets::prepare(&MANY[..m], &mut sheet);
    let mut list = [UNWRITTEN; 3];
    let Ok(fed) = finder::feed(&sheet, Watch::open(), &MANY[..m + 1], &mut list) else {
        return false;
    };
    size == Ok(length as u64)
        && sheet.starts_with(first)
        && sheet.get(length) == Some(&UNTOUCHED)
        && fed.ending == Ending::PieceDone
        && fed.watch.compares == (m + 1) as u64
        && is_list(&list, &[0, 1])
}

// Whether the code `a` and 299 letters `b` has a sheet whose counts need their high byte: each state but 0 has one backward arrow, so the last count is 300.
// And whether it is found where it stands twice in a row.
fn has_large_counts() -> bool {
    let mut text = [98u8; 600];
    text[0] = 97;
    text[300] = 97;
    let mut sheet = [UNTOUCHED; 1506];
    let size = sheets::prepare(&text[..300], &mut sheet);
    let mut list = [UNWRITTEN; 3];
    let Ok(fed) = finder::feed(&sheet, Watch::open(), &text, &mut list) else {
        return false;
    };
    size == Ok(1505)
        && sheet[903] == 1
        && sheet[904] == 44
        && sheet[1505] == UNTOUCHED
        && fed.ending == Ending::PieceDone
        && fed.watch.compares == 1198
        && is_list(&list, &[0, 300])
}

// Whether feeding refuses the sheet of so many letters with another byte at an index: no sheet here has a 98.
fn is_no_sheet(m: usize, i: usize) -> bool
    requires { (m ≤ 4002) × (i < 20005) }
{
    let mut sheet = [UNTOUCHED; 20005];
    let size = sheets::prepare(&MANY[..m], &mut sheet);
    sheet[i] = 98;
    let mut list = [UNWRITTEN; 1];
    size.is_ok() && refusal(finder::feed(&sheet, Watch::open(), b"", &mut list)) == 4
}

// Whether feeding refuses the wide layout of `a`, which has a short sheet.
fn is_once() -> bool {
    let sheet = b"\x00\x00\x01\x61\x00\x00\x00\x01\x00\x01";
    let mut list = [UNWRITTEN; 1];
    refusal(finder::feed(sheet, Watch::open(), b"", &mut list)) == 4
}

// Lengths that are accepted and their sheets; rooms and lengths that are not; a wide sheet damaged in each of its parts; and the ceilings.
pub fn lengths() -> Tally {
    let mut t = Tally::new();
    t.add(is_found(255, 513, b"\xffaa"));
    t.add(is_found(256, 775, b"\x00\x01\x00"));
    t.add(is_found(4000, 12007, b"\x00\x0f\xa0"));
    t.add(has_large_counts());
    t.add(prepare_refuses(2, &MANY[..4001], 20005));
    t.add(prepare_refuses(2, &MANY[..4001], 0));
    t.add(prepare_refuses(3, &MANY[..255], 766));
    t.add(prepare_refuses(3, &MANY[..256], 1284));
    t.add(prepare_refuses(3, &MANY[..4000], 20004));
    for i in [0, 1, 2, 258, 771, 772, 773, 774] {
        t.add(is_no_sheet(256, i));
    }
    t.add(is_once());
    t.add(refusal(codes::total_ceiling(4001, 1)) == 2);
    t.add(codes::total_ceiling(256, 256) == Ok(511));
    t.add(codes::total_ceiling(4000, 4000) == Ok(7999));
    t.add(codes::total_ceiling(4000, 4294967295) == Ok(8588860848));
    t.add(refusal(codes::byte_ceiling(&MANY[..4001])) == 2);
    t.add(codes::byte_ceiling(&MANY[..4000]) == Ok(1));
    t
}
