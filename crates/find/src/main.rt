// find: reads `(code X)`, a line feed and a text from standard input, and prints each place of X in the text, then what was counted.
// `run` is the program, and its contract says what it does with the bytes that came. Only what the system did is left to reading, in crates/streams.
#![tactic(auto)]

ghost use Rattle.std.specs.Prelude.{◌≡◌, ◌≤◌, length, take};
ghost use Rattle.runs.specs.Refusals.{refusal_of};
ghost use Rattle.find.specs.Printed.{prepared_refusal, prepared_sheet, line_refusal, line_sheet, piece_size, PieceWritten};
ghost use Rattle.find.specs.Program.{GotInto, PiecePrinted, PieceSearched, TextSearched, Ran};

use finder::Watch;
use forms::{Line, Page};
use runs::Refusal;
use streams::{Input, NotComplete, Output};

// The bytes of a piece; fewer make the last one.
const PIECE: usize = 4096;

// Room for what is printed with a place for each byte of a piece.
const PRINTED: usize = 16 * PIECE + 75;

// Room for one byte more than the longest code has.
const KEPT: usize = codes::LONGEST as usize + 1;

// Room for the sheet of the longest code.
const SHEET: usize = 5 * (codes::LONGEST as usize) + 5;

// Reads until a buffer is full or the input ends, whatever each read brings. The loop is written out, since std's own says too little of a read that failed.
fn read_full(input: &mut Input, buffer: &mut [u8]) -> Result<usize, NotComplete>
    ensures { GotInto (length buffer.old) input.old result input.new buffer.new }
{
    let mut n = 0;
    while n < buffer.len() {
        let k = input.read_some(&mut buffer[n..])?;
        if k == 0 {
            return Ok(n);
        }
        n += k;
    }
    Ok(n)
}

// Prepares the sheet of the first n bytes that were kept: its length in bytes. The line's form, `Line::Done`, tells n; the bytes are in a buffer of one size.
fn prepare_code(kept: &[u8], n: usize, sheet: &mut [u8]) -> Result<u64, Refusal>
    ensures { (refusal_of result ≡ prepared_refusal kept.now n (length sheet.old))
        × (sheet.new ≡ prepared_sheet kept.now n sheet.old) }
{
    if kept.len() < n {
        return Err(Refusal::WrongLine);
    }
    sheets::prepare(&kept[..n], sheet)
}

// Prepares the sheet of the first line's code, if the line is of its form.
fn prepare_line(line: Line, kept: &[u8; KEPT], sheet: &mut [u8]) -> Result<u64, Refusal>
    ensures { (refusal_of result ≡ line_refusal line kept.now (length sheet.old))
        × (sheet.new ≡ line_sheet line kept.now sheet.old) }
{
    match line {
        Line::Done(n) => prepare_code(kept, n, sheet),
        _ => Err(Refusal::WrongLine),
    }
}

// The room for a search: a piece of the text, a place for each of its bytes, and what is printed for it.
#[derive(Drop)]
struct Room {
    piece: [u8; PIECE],
    places: [u32; PIECE],
    page: Page<PRINTED>,
}

impl Room {
    fn new() -> Self {
        Room {
            piece: [0; PIECE],
            places: [0; PIECE],
            page: Page::new(),
        }
    }

    // Feeds the first n bytes of the piece, and puts on the page what is to be printed for them. Answers the watch if more of the text is to be read.
    fn write_piece(&mut self, sheet: &[u8], watch: Watch, n: usize) -> Option<Watch>
        requires { n ≤ piece_size }
        ensures { PieceWritten sheet.now watch (take n self.old.piece) piece_size result self.new.page }
    {
        self.page.clear();
        let fed = match finder::feed(sheet, watch, &self.piece[..n], &mut self.places) {
            Ok(fed) => fed,
            Err(refusal) => {
                self.page.put_refused(refusal.number());
                return None;
            }
        };
        let next = fed.watch;
        self.page.put_places(&self.places[..fed.written as usize]);
        if n < PIECE {
            self.page.put_end(next.taken, next.hits, next.compares);
            return None;
        }
        Some(next)
    }

    // Takes the first n bytes of the piece, and prints what they lead to. Answers the watch if more of the text is to be read.
    fn print_piece(
        &mut self,
        sheet: &[u8],
        watch: Watch,
        n: usize,
        output: &mut Output,
    ) -> Result<Option<Watch>, NotComplete>
        requires { n ≤ piece_size }
        ensures { PiecePrinted sheet.now watch (take n self.old.piece) piece_size output.old result output.new }
    {
        let next = self.write_piece(sheet, watch, n);
        output.send(self.page.bytes())?;
        Ok(next)
    }

    // Reads a piece, takes it and prints what it leads to. Answers the watch if more of the text is to be read.
    fn search_piece(
        &mut self,
        sheet: &[u8],
        watch: Watch,
        input: &mut Input,
        output: &mut Output,
    ) -> Result<Option<Watch>, NotComplete>
        ensures { PieceSearched sheet.now watch input.old output.old result input.new output.new }
    {
        let n = read_full(input, &mut self.piece)?;
        self.print_piece(sheet, watch, n, output)
    }
}

// Searches the text, as long as more of it is to come. Each turn counts bytes that came: so it ends.
fn search(sheet: &[u8], input: &mut Input, output: &mut Output) -> Result<(), NotComplete>
    ensures { TextSearched sheet.now input.old output.old result input.new output.new }
{
    let mut room = Room::new();
    let mut next = Some(Watch::open());
    while let Some(watch) = next {
        next = room.search_piece(sheet, watch, input, output)?;
    }
    Ok(())
}

// The program.
fn run(input: &mut Input, output: &mut Output) -> Result<(), NotComplete>
    requires { (input.old ≡ 0) × (output.old ≡ 0) }
    ensures { Ran result input.new output.new }
{
    let mut kept = [0u8; KEPT];
    let line = input.read_line(Line::Opening(0), &mut kept)?;
    let mut sheet = [0u8; SHEET];
    if let Err(refusal) = prepare_line(line, &kept, &mut sheet) {
        return output.print_refusal(refusal.number());
    }
    search(&sheet, input, output)
}

// A run that is not complete has said so on standard error, and main answers nothing.
fn main(rt: HostRuntime) {
    let mut input = Input::new(rt.stdin());
    let mut output = Output::new();
    let _ = run(&mut input, &mut output);
}
