// The program's forms: the line that its input begins with, and the lines that it prints.
#![tactic(auto)]

ghost use Rattle.std.specs.Prelude.{◌≡◌, true, ◌++◌, ◌*◌, length, SomeIff};
ghost use Rattle.forms.specs.Ascii.{ascii};
ghost use Rattle.forms.specs.Text.{decimal, place_form, place_forms, end_form, refused_form, Written, WrittenWithin};
ghost use Rattle.forms.specs.Line.{of_code, depth_after, line_after, kept_after, goes_on};

mod page;

pub use page::Page;

// How far a code was read: so many of its bytes were kept, and so many of its brackets are open.
#[derive(Clone, Copy)]
pub struct Inside {
    pub kept: usize,
    pub depth: u64,
}

// How far the first line was read: so many bytes of `(code `; so far into the code; its closing bracket, with so many bytes of the code kept; the line
// feed, and so the line is of its form; or it is not of its form.
#[derive(Clone, Copy)]
pub enum Line {
    Opening(usize),
    Code(Inside),
    Closed(usize),
    Done(usize),
    Wrong,
}

// Whether the line is still being read.
pub fn goes_on(line: Line) -> bool
    ensures { result ≡ goes_on line }
{
    matches!(line, Line::Opening(_) | Line::Code(_) | Line::Closed(_))
}

// One byte of `(code `, after n.
fn opening_byte(n: usize, byte: u8) -> Line
    ensures { result ≡ line_after 0 (Line.Opening n) byte }
{
    let opening = b"(code ";
    if n >= opening.len() || opening[n] != byte {
        return Line::Wrong;
    }
    if n == 5 {
        return Line::Code(Inside { kept: 0, depth: 0 });
    }
    Line::Opening(n + 1)
}

// How many brackets are open behind a byte of a code, where so many are open before it, if it may stand there.
fn depth_after(depth: u64, byte: u8) -> Option<u64>
    ensures { SomeIff result (of_code depth byte ≡ true) (depth_after depth byte) }
{
    match byte {
        b'(' => depth.checked_add(1),
        b')' => depth.checked_sub(1),
        b'\n' => None,
        _ => Some(depth),
    }
}

// One byte of the code, or the bracket that closes it. Of a code with more bytes than have room the rest is not kept.
fn code_byte(inside: Inside, byte: u8, kept: &mut [u8]) -> Line
    ensures { (result ≡ line_after (length kept.old) (Line.Code inside) byte)
        × (kept.new ≡ kept_after (Line.Code inside) byte kept.old) }
{
    let n = inside.kept;
    let Some(depth) = depth_after(inside.depth, byte) else {
        return if byte == b')' {
            Line::Closed(n)
        } else {
            Line::Wrong
        };
    };
    if n < kept.len() {
        kept[n] = byte;
        return Line::Code(Inside { kept: n + 1, depth });
    }
    Line::Code(Inside { kept: n, depth })
}

// One byte of the first line; those of the code are kept as long as there is room.
pub fn line_byte(line: Line, byte: u8, kept: &mut [u8]) -> Line
    ensures { (result ≡ line_after (length kept.old) line byte) × (kept.new ≡ kept_after line byte kept.old) }
{
    match line {
        Line::Opening(n) => opening_byte(n, byte),
        Line::Code(inside) => code_byte(inside, byte, kept),
        Line::Closed(n) if byte == b'\n' => Line::Done(n),
        Line::Closed(_) => Line::Wrong,
        Line::Done(_) | Line::Wrong => line,
    }
}

// WRITING. The functions down to the end take any buffer and any place in it, and so they stay beside the methods of a page, which owns its buffer. Their
// contracts name each byte and where it ends, which the library's formatting does not.

// Writes bytes from a place on, as many as have room; where they end.
pub fn put(buffer: &mut [u8], at: usize, bytes: &[u8]) -> usize
    ensures { Written bytes.now at buffer.old result buffer.new }
{
    if buffer.len() <= at {
        return at;
    }
    let n = usize::min(bytes.len(), buffer.len() - at);
    buffer[at..at + n].copy_from_slice(&bytes[..n]);
    at + n
}

// Writes bytes and a number's decimal digits behind them.
pub fn put_number(buffer: &mut [u8], at: usize, bytes: &[u8], n: u64) -> usize
    ensures { Written (bytes.now ++ decimal n) at buffer.old result buffer.new }
{
    let mut digits = [0u8; 20];
    let k = io::decimal(n, &mut digits);
    let mid = put(buffer, at, bytes);
    put(buffer, mid, &digits[..k])
}

// Writes a form with one number: bytes, the number, a closing bracket and a line feed.
fn put_form(buffer: &mut [u8], at: usize, bytes: &[u8], n: u64) -> usize
    ensures { Written (bytes.now ++ decimal n ++ ascii ")\n") at buffer.old result buffer.new }
{
    let end = put_number(buffer, at, bytes, n);
    put(buffer, end, b")\n")
}

// Writes the form of a place, of 16 bytes at most.
fn put_place(buffer: &mut [u8], at: usize, place: u32) -> usize
    ensures { WrittenWithin 16 (place_form place) at buffer.old result buffer.new }
{
    put_form(buffer, at, b"(at ", u64::from(place))
}

// Writes the forms of places, each of 16 bytes at most.
pub fn put_places(buffer: &mut [u8], at: usize, places: &[u32]) -> usize
    ensures { WrittenWithin (16 * length places.now) (place_forms places.now) at buffer.old result buffer.new }
{
    let mut end = at;
    for &place in places {
        end = put_place(buffer, end, place);
    }
    end
}

// Writes the form of a search's end, of 75 bytes at most: bytes, places and comparisons.
pub fn put_end(buffer: &mut [u8], at: usize, bytes: u32, hits: u32, compares: u64) -> usize
    ensures { WrittenWithin 75 (end_form bytes hits compares) at buffer.old result buffer.new }
{
    let a = put_number(buffer, at, b"(end (bytes ", u64::from(bytes));
    let b = put_number(buffer, a, b") (hits ", u64::from(hits));
    let c = put_number(buffer, b, b") (compares ", compares);
    put(buffer, c, b"))\n")
}

// Writes the form of a refusal, of 21 bytes at most: its number, whatever that stands for.
pub fn put_refused(buffer: &mut [u8], at: usize, number: u32) -> usize
    ensures { WrittenWithin 21 (refused_form number) at buffer.old result buffer.new }
{
    put_form(buffer, at, b"(refused ", u64::from(number))
}
