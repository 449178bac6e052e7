// The head of the input: a line `(code X)` for each code, and an empty line. It is read line by line, and the board of its codes is prepared.
ghost use Rattle.std.specs.Prelude.{◌≡◌, [], suc, ◌≤◌, length};
ghost use Rattle.runs.specs.Refusals.{refusal_of};
ghost use Rattle.codes.specs.Codes.{longest_code};
ghost use Rattle.sweep.specs.Head.{HeadRead};
ghost use Rattle.sweep.specs.Lines.{next_of, NextRead, CodeRead, CodesKept, Adds, Prepares};

use boards::{MOST_BYTES, MOST_CODES};
use forms::{Line, Page};
use runs::Refusal;
use streams::{Input, NotComplete};

// Room for one byte more than the longest code has, and for one code and one byte more than a board may have.
const KEPT: usize = codes::LONGEST as usize + 1;

const LENGTHS: usize = MOST_CODES + 1;

const BYTES: usize = MOST_BYTES + 1;

// What the next line of the head is: a code, with so many of its bytes kept; the empty line; or not of its form.
#[derive(Clone, Copy, PartialEq, Eq)]
enum Next {
    Coded(usize),
    Empty,
    Other,
}

// What a line is by how far it was read.
impl From<Line> for Next {
    ghost from_gives = { λ line next. next ≡ next_of line };

    fn from(line: Line) -> Next {
        match line {
            Line::Done(n) => Next::Coded(n),
            _ => Next::Other,
        }
    }
}

// Reads the rest of a code's line, behind its first byte.
fn read_code(input: &mut Input, first: u8, kept: &mut [u8; KEPT]) -> Result<Next, NotComplete>
    ensures { CodeRead first input.old result kept.new input.new }
{
    let line = forms::line_byte(Line::Opening(0), first, kept);
    let end = input.read_line(line, kept)?;
    Ok(Next::from(end))
}

// Reads the next line of the head. An input that ends before it is not of its form.
fn read_next(input: &mut Input, kept: &mut [u8; KEPT]) -> Result<Next, NotComplete>
    ensures { NextRead input.old result kept.new input.new }
{
    let mut one = [0u8; 1];
    let n = input.read_some(&mut one)?;
    if n == 0 {
        return Ok(Next::Other);
    }
    if one[0] == b'\n' {
        return Ok(Next::Empty);
    }
    read_code(input, one[0], kept)
}

// The codes so far: their lengths and their bytes, as many as have room, and whether one was empty, and one too long: two flags,
// since an empty code is refused before one that is too long, whichever came first, and both at the head's end.
#[derive(Drop)]
struct Codes {
    lengths: [u32; LENGTHS],
    count: usize,
    bytes: Page<BYTES>,
    empty: bool,
    long: bool,
}

impl Codes {
    // No code.
    fn new() -> Self
        ensures { CodesKept [] result }
    {
        Codes {
            lengths: [0u32; LENGTHS],
            count: 0,
            bytes: Page::new(),
            empty: false,
            long: false,
        }
    }

    // One code more, of which so many bytes are kept as tell whether it is too long.
    fn add_code(&mut self, code: &[u8])
        requires { length code.now ≤ suc longest_code }
        ensures { Adds code.now self.old self.new }
    {
        let n = code.len() as u32;
        self.bytes.put(code);
        self.empty |= n == 0;
        self.long |= codes::LONGEST < n;
        if self.count < LENGTHS {
            self.lengths[self.count] = n;
            self.count += 1;
        }
    }

    // Prepares the board of the codes: its length, or the refusal. Only codes that a board may have are all kept, so the others are refused before.
    fn prepare_codes(&self, board: &mut [u8; boards::ROOM]) -> Result<u64, Refusal>
        ensures { Prepares self.now (refusal_of result) board.new }
    {
        if self.empty {
            return Err(Refusal::EmptyCode);
        }
        if self.long {
            return Err(Refusal::LongCode);
        }
        let count = self.count;
        let bytes = self.bytes.bytes();
        if MOST_CODES < count {
            return Err(Refusal::UnfitCodes);
        }
        if MOST_BYTES < bytes.len() {
            return Err(Refusal::UnfitCodes);
        }
        let lengths = &self.lengths[..count];
        boards::prepare(lengths, bytes, board)
    }
}

// Reads the head, and prepares the board of its codes: its length, or what refuses the head. Each turn counts bytes that came: so it ends.
pub fn read_head(
    input: &mut Input,
    board: &mut [u8; boards::ROOM],
) -> Result<Result<u64, Refusal>, NotComplete>
    ensures { HeadRead input.old result board.new input.new }
{
    let mut kept = [0u8; KEPT];
    let mut list = Codes::new();
    loop {
        match read_next(input, &mut kept)? {
            Next::Coded(n) => list.add_code(&kept[..n]),
            Next::Empty => return Ok(list.prepare_codes(board)),
            Next::Other => return Ok(Err(Refusal::WrongLine)),
        }
    }
}
