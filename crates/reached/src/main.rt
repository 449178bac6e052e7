// reached (request 114): what the codes and texts that cost most do cost, for some lengths, beside the ceilings. A line has the code's length m, the number n
// of bytes read, the comparisons that the watch counted (of all n bytes, or of the one behind them) and the ceiling that the library answers. The contracts of
// `put_total` and `put_byte` say that the last two are the ceiling, for all lengths that they take. Since they are equal, no contract can say which of them was
// counted: that is read in `costly` and `steep`.
#![tactic(auto)]

ghost use Rattle.std.specs.Prelude.{◌≡◌, true, [], ◌+◌, ◌^◌, ◌≤◌, ◌<◌, length, take};
ghost use Rattle.words.specs.Words.{byte};
ghost use Rattle.automaton.specs.Ceilings.{log2};
ghost use Rattle.automaton.specs.Costs.{cost_after};
ghost use Rattle.codes.specs.Codes.{accepted};
ghost use Rattle.finder.specs.Texts.{watch_of};
ghost use Rattle.forms.specs.Text.{PutWithin};
ghost use Rattle.reached.specs.Words.{spaced_byte, spaced, steep_code};
ghost use Rattle.reached.specs.Figures.{total_figures, byte_figures, figures_form, total_form, byte_form};

use finder::Watch;
use forms::Page;

// The longest text here: a prime, so that no code but one of a single byte ends where it ends.
const TEXT: usize = 10007;

// Room for the longest code, for its sheet, and for a line.
const CODE: usize = codes::LONGEST as usize;

const SHEET: usize = 5 * CODE + 5;

const LINE: usize = 97;

// What a line shows.
#[derive(Clone, Copy)]
struct Figures {
    m: u32,
    n: u32,
    cost: u64,
    ceiling: u64,
}

// Byte i of a word with an `a` at every multiple of m, and `b` elsewhere.
fn spaced_byte(m: usize, i: usize) -> u8
    requires { 1 ≤ m }
    ensures { result ≡ spaced_byte m i }
{
    if i % m == 0 {
        return b'a';
    }
    b'b'
}

// The first bytes of this word.
fn fill_spaced(word: &mut [u8], m: usize)
    requires { 1 ≤ m }
    ensures { word.new ≡ spaced m (length word.old) }
{
    for (i, byte) in word.iter_mut().enumerate() {
        *byte = spaced_byte(m, i);
    }
}

// The first bytes of a ruler: 32, and how often the byte's number, from 1, can be halved.
fn fill_ruler(word: &mut [u8])
    ensures { word.new ≡ steep_code (length word.old) }
{
    for (i, byte) in word.iter_mut().enumerate() {
        *byte = 32 + (usize::trailing_zeros(i + 1) as u8);
    }
}

// What a search is lent: room for the sheet of any code, and for every place that a text can have.
#[derive(Drop)]
struct Room {
    sheet: [u8; SHEET],
    places: [u32; TEXT + 1],
}

impl Room {
    fn new() -> Room {
        Room {
            sheet: [0; SHEET],
            places: [0; TEXT + 1],
        }
    }

    // The watch after a text, from preparing the code and an opening on.
    fn count(&mut self, code: &[u8], text: &[u8]) -> Watch
        requires { (accepted code.now ≡ true) × (length text.now ≤ 10007) }
        ensures { result ≡ watch_of code.now text.now }
    {
        sheets::prepare(code, &mut self.sheet).unwrap();
        let f = finder::feed(&self.sheet, Watch::open(), text, &mut self.places).unwrap();
        f.watch
    }

    // What byte n of a code costs behind the bytes before it.
    fn cost_behind(&mut self, code: &[u8], n: usize) -> u64
        requires { (accepted code.now ≡ true) × (n < length code.now) × (length code.now ≤ 4000) }
        ensures { result ≡ cost_after code.now (take n code.now) (byte code.now n) }
    {
        let before = self.count(code, &code[..n]);
        let after = self.count(code, &code[..n + 1]);
        after.compares - before.compares
    }
}

// What feeding the costly code of m bytes its text of n bytes costs, and the total ceiling.
fn costly(m: usize, n: usize) -> Figures
    requires { (1 ≤ m) × (m ≤ 4000) × (n ≤ 10007) }
    ensures { result ≡ total_figures m n }
{
    let mut bytes = [0u8; CODE];
    let code = &mut bytes[..m];
    fill_spaced(code, m);
    let mut bytes = [0u8; TEXT];
    let text = &mut bytes[..n];
    fill_spaced(text, m);
    let x = Room::new().count(code, text);
    Figures {
        m: m as u32,
        n: x.taken,
        cost: x.compares,
        ceiling: codes::total_ceiling(m as u32, x.taken).unwrap(),
    }
}

// What the byte behind the first n of the steep code of m bytes costs, and the byte ceiling.
fn steep(m: usize, n: u32) -> Figures
    requires { (1 ≤ m) × (m ≤ 4000) × (n + 1 ≡ 2 ^ log2 m) }
    ensures { result ≡ byte_figures m n }
{
    let mut bytes = [0u8; CODE];
    let code = &mut bytes[..m];
    fill_ruler(code);
    Figures {
        m: m as u32,
        n,
        cost: Room::new().cost_behind(code, n as usize),
        ceiling: codes::byte_ceiling(code).unwrap(),
    }
}

// Writes a line, of 97 bytes at most, in place of what stood on the page: what is before the figures, and the figures.
fn put_line(page: &mut Page<LINE>, start: &[u8], f: Figures)
    requires { length start.now ≤ 10 }
    ensures { PutWithin 97 (figures_form start.now f) 97 [] page.new }
{
    page.clear();
    page.put_number(start, u64::from(f.m));
    page.put_number(b") (n ", u64::from(f.n));
    page.put_number(b") (cost ", f.cost);
    page.put_number(b") (ceiling ", f.ceiling);
    page.put(b"))\n");
}

// Writes the line of a costly code and its text. The bounds of m stand in each contract: a type of them would be made for two tables of numbers alone.
fn put_total(page: &mut Page<LINE>, m: usize, n: usize)
    requires { (1 ≤ m) × (m ≤ 4000) × (n ≤ 10007) }
    ensures { PutWithin 97 (total_form m n) 97 [] page.new }
{
    put_line(page, b"(total (m ", costly(m, n));
}

// Writes the line of a steep code and the byte behind its first n. It stands beside `put_total`, since its contract names another form and other lengths.
fn put_byte(page: &mut Page<LINE>, m: usize, n: u32)
    requires { (1 ≤ m) × (m ≤ 4000) × (n + 1 ≡ 2 ^ log2 m) }
    ensures { PutWithin 97 (byte_form m n) 97 [] page.new }
{
    put_line(page, b"(byte (m ", steep(m, n));
}

// The lengths of which lines are printed: codes and texts, and codes with the bytes before the one that costs most.
const TOTALS: [(usize, usize); 9] = [
    (1, TEXT),
    (2, TEXT),
    (3, 0),
    (3, 8),
    (3, TEXT),
    (255, TEXT),
    (256, TEXT),
    (4000, 100),
    (4000, TEXT),
];

const BYTES: [(usize, u32); 7] = [
    (1, 0),
    (2, 1),
    (3, 1),
    (4, 3),
    (255, 127),
    (256, 255),
    (4000, 2047),
];

fn main() {
    let mut page = Page::new();
    for (m, n) in TOTALS {
        put_total(&mut page, m, n);
        io::write_all(1, page.bytes());
    }
    for (m, n) in BYTES {
        put_byte(&mut page, m, n);
        io::write_all(1, page.bytes());
    }
}
