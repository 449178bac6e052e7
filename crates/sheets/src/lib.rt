// Sheets (the automaton's tables in bytes): preparing the sheet of a code, and the check that a buffer begins with one. filling.rt fills a sheet; what is below
// exists once for short and wide ones.
#![tactic(auto)]

ghost use Rattle.std.specs.Prelude.{◌≡◌, true, false, ◌&&◌, ◌+◌, ◌*◌, ◌≤◌, ◌<◌, leb, length, take, MatchOption};
ghost use Rattle.words.specs.Words.{same};
ghost use Rattle.codes.specs.Refusals.{told};
ghost use Rattle.codes.specs.Codes.{longest_code, code_refusal};
ghost use Rattle.sheets.specs.Sheet.{number_width, code_start, sheet_room, named_length, named, begins};
ghost use Rattle.sheets.specs.Entry.{PrepareSays};
ghost use Rattle.sheets.specs.Inside.{Freshly};

use codes::check_code;
use filling::Draft;
use runs::Refusal;

mod filling;

// How many bytes a number has on the sheet of a code of m bytes: one on a short sheet, two on a wide one.
pub fn number_width(m: usize) -> usize
    ensures { result ≡ number_width m }
{
    if m <= 255 { 1 } else { 2 }
}

// Where the code begins on it.
pub fn code_start(m: usize) -> usize
    ensures { (result ≡ code_start m) × (result ≤ 3) }
{
    if number_width(m) == 1 { 1 } else { 3 }
}

// Room that is enough for the sheet of any code of m bytes.
fn sheet_room(m: usize) -> usize
    requires { m ≤ longest_code }
    ensures { result ≡ sheet_room m }
{
    if number_width(m) == 1 {
        3 * m + 2
    } else {
        5 * m + 5
    }
}

// The sheet of a code, written to the buffer's start: its length in bytes. A refusal changes nothing.
pub fn prepare(code: &[u8], buffer: &mut [u8]) -> Result<u64, Refusal>
    ensures { PrepareSays code.now (told result) buffer.old buffer.new }
{
    check_code(code)?;
    let m = code.len();
    if buffer.len() < sheet_room(m) {
        return Err(Refusal::ShortBuffer);
    }
    let size = if number_width(m) == 1 {
        Draft::<1> { code }.fill(buffer)
    } else {
        Draft::<2> { code }.fill(buffer)
    };
    Ok(size as u64)
}

// Whether a and b have at least n bytes each, and the same first n: more than the `==` of two slices says.
pub fn same_front(a: &[u8], b: &[u8], n: usize) -> bool
    ensures { result ≡ leb n (length b.now) && same (take n a.now) (take n b.now) }
{
    if a.len() < n || b.len() < n {
        return false;
    }
    a[..n] == b[..n]
}

// The length of the code that a buffer names.
fn named_length(buffer: &[u8]) -> usize
    requires { 3 ≤ length buffer.now }
    ensures { (result ≡ named_length buffer.now) × (result < 65536) }
{
    if buffer[0] == 0 {
        return usize::from(u16::from_be_bytes([buffer[1], buffer[2]]));
    }
    usize::from(buffer[0])
}

// Whether a buffer begins with the sheet of an accepted code. A short code has a small work area: to clear the large one takes time. It is never inlined, so
// that the area takes no stack while a text is read, and what is here does not move where the loops of feeding begin.
#[inline(never)]
fn is_fresh(buffer: &[u8], code: &[u8]) -> bool
    requires { code_refusal code.now ≡ 0 }
    ensures { Freshly buffer.now code.now result }
{
    if number_width(code.len()) == 1 {
        return Draft::<1> { code }.begins::<767>(buffer);
    }
    Draft::<2> { code }.begins::<20005>(buffer)
}

// The code whose sheet a buffer begins with, if it begins with that of an accepted one.
pub fn read_sheet(buffer: &[u8]) -> Option<&[u8]>
    ensures { MatchOption result (begins buffer.now ≡ false) (λ code. (begins buffer.now ≡ true) × (code.now ≡ named buffer.now)) }
{
    if buffer.len() < 3 {
        return None;
    }
    let m = named_length(buffer);
    let start = code_start(m);
    let end = start + m;
    if buffer.len() < end {
        return None;
    }
    let code = &buffer[start..end];
    if check_code(code).is_err() {
        return None;
    }
    if !is_fresh(buffer, code) {
        return None;
    }
    Some(code)
}

// Whether a buffer names an accepted code and begins with its sheet.
pub fn is_sheet(buffer: &[u8]) -> bool
    ensures { result ≡ begins buffer.now }
{
    read_sheet(buffer).is_some()
}
