// Request 107: a code with a control byte, one below 32, is refused with 13 where a code is given, and its sheet with 4. A text may have any byte.
ghost use Rattle.std.specs.Prelude.{◌≤◌, ◌<◌};

use crate::{Tally, UNTOUCHED, UNWRITTEN, is_list, is_untouched, refusal};
use finder::Watch;
use runs::Ending;

// What is tried for each byte: codes of 1 to 5 bytes, which are the starts of this one with the byte at an index.
const LETTERS: [u8; 5] = [97, 98, 97, 97, 98];

// Whether preparing and the byte ceiling refuse a code with a number, 0 for none; whether `has_control` agrees; and whether the buffer is changed only
// if there is no refusal.
fn is_refused(number: u32, code: &[u8]) -> bool {
    let mut buffer = [UNTOUCHED; 17];
    refusal(sheets::prepare(code, &mut buffer)) == number
        && is_untouched(&buffer) == (number != 0)
        && refusal(codes::byte_ceiling(code)) == number
        && codes::has_control(code) == (number != 0)
}

// Whether the code with a byte at an index is refused with a number.
fn refuses_code(number: u32, byte: u8, m: usize, i: usize) -> bool
    requires { (m ≤ 5) × (i < 5) }
{
    let mut code = LETTERS;
    code[i] = byte;
    is_refused(number, &code[..m])
}

// Whether feeding with its sheet is refused with a number. The sheet is that of the code with `z` there, and the byte for the `z`.
fn refuses_sheet(number: u32, byte: u8, m: usize, i: usize) -> bool
    requires { (m ≤ 5) × (i < 5) }
{
    let mut code = LETTERS;
    code[i] = 122;
    let mut sheet = [UNTOUCHED; 17];
    let size = sheets::prepare(&code[..m], &mut sheet);
    sheet[i + 1] = byte;
    let mut list = [UNWRITTEN; 1];
    let fed = match finder::feed(&sheet, Watch::open(), b"", &mut list) {
        Ok(fed) => number == 0 && fed.ending == Ending::PieceDone,
        Err(refusal) => refusal.number() == number,
    };
    size.is_ok() && fed
}

// Whether a byte is refused with these numbers at every index of every code.
fn in_every_code(code: u32, sheet: u32, byte: u8) -> bool {
    for m in 1..6 {
        for i in 0..m {
            if !refuses_code(code, byte, m, i) || !refuses_sheet(sheet, byte, m, i) {
                return false;
            }
        }
    }
    true
}

// Whether preparing refuses a code with a number in a buffer of no bytes: 13 comes before 3, and 2 before 13.
fn is_first(number: u32, code: &[u8]) -> bool {
    refusal(sheets::prepare(code, &mut [])) == number
}

// Whether `a` is found behind control bytes.
fn found_in_text() -> bool {
    let mut sheet = [UNTOUCHED; 5];
    let size = sheets::prepare(b"a", &mut sheet);
    let mut list = [UNWRITTEN; 2];
    let text = b"\x00\x0a\x0d\x1fa";
    let Ok(fed) = finder::feed(&sheet, Watch::open(), text, &mut list) else {
        return false;
    };
    size.is_ok() && fed.ending == Ending::PieceDone && is_list(&list, &[4])
}

// Bytes on both sides of the limit, and the first and the last; the order of the refusals; a text.
pub fn controls() -> Tally {
    let long = [31u8; 4001];
    let mut t = Tally::new();
    for byte in [0, 10, 13, 31] {
        t.add(in_every_code(13, 4, byte));
    }
    for byte in [32, 127, 255] {
        t.add(in_every_code(0, 0, byte));
    }
    t.add(is_first(13, b"a\x0a"));
    t.add(is_first(13, &long[..4000]));
    t.add(is_first(2, &long));
    t.add(is_first(3, b"a "));
    t.add(found_in_text());
    t
}
