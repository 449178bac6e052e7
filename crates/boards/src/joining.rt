// Two boards joined: the codes of both are listed and prepared afresh.
ghost use Rattle.std.specs.Prelude.{◌≡◌, not, [], ◌∷◌, ◌≤◌, IfOk, length};
ghost use Rattle.runs.specs.Refusals.{refusal_of};
ghost use Rattle.codes.specs.Refusals.{refused_if, told};
ghost use Rattle.starts.specs.Starts.{is_code};
ghost use Rattle.boards.specs.Board.{begins};
ghost use Rattle.boards.specs.Tables.{codes_of};
ghost use Rattle.boards.specs.Join.{joined, JoinSays};
ghost use Rattle.boards.specs.Naming.{OnNamed};
ghost use Rattle.boards.specs.Joined.{Listed, Lists, RoomFor, Prepares};

use crate::given::Codes;
use crate::layout::put_bytes;
use crate::named::Named;
use crate::prepare;
use runs::Refusal;
use sheets::same_front;

// Whether the buffer begins with the board of these codes, which it names: they are prepared afresh and compared.
fn is_prepared(board: &[u8], codes: Codes) -> bool
    requires { OnNamed board.now codes }
    ensures { result ≡ begins board.now }
{
    let mut area = [0; 32768];
    let Ok(size) = prepare(codes.lengths, codes.bytes, &mut area) else {
        return false;
    };
    same_front(board, &area, size as usize)
}

// The codes of a board; refused if the buffer does not begin with one.
fn read_board(board: &[u8]) -> Result<Named<'_>, Refusal>
    ensures refusal { refusal_of result ≡ refused_if 4 (not (begins board.now)) }
    ensures ok { IfOk result (λ named. named.board.now ≡ board.now) }
{
    let Some(named) = Named::read(board) else {
        return Err(Refusal::NotPrepared);
    };
    if !is_prepared(board, named.codes()) {
        return Err(Refusal::NotPrepared);
    }
    Ok(named)
}

// Whether a word is one of the codes. Where a code begins is kept beside the lengths: an iterator that cuts the bytes would need its own proof of it.
fn has_code(codes: Codes, word: &[u8]) -> bool
    ensures { result ≡ is_code (codes_of codes.entry) word.now }
{
    let mut at = 0;
    for &length in codes.lengths {
        let end = at + length as usize;
        if &codes.bytes[at..end] == word {
            return true;
        }
        at = end;
    }
    false
}

// A list of codes, with room for those of two boards: their lengths, and their bytes one after the other, in
// arrays with how much of them is used, since no memory is asked for.
#[derive(Drop)]
struct List {
    lengths: [u32; 128],
    bytes: [u8; 4000],
    count: usize,
    end: usize,
}

impl List {
    // The codes of a board.
    fn of(codes: Codes) -> List
        ensures listed { Listed (codes_of codes.entry) result }
        ensures few { (result.count ≤ 64) × (result.end ≤ 2000) }
    {
        let count = codes.lengths.len();
        let end = codes.bytes.len();
        let mut lengths = [0; 128];
        let mut bytes = [0; 4000];
        for (i, &length) in codes.lengths.iter().enumerate() {
            lengths[i] = length;
        }
        put_bytes(codes.bytes, &mut bytes, 0);
        List {
            lengths,
            bytes,
            count,
            end,
        }
    }

    // One code more.
    fn push(&mut self, code: &[u8])
        requires { RoomFor 1 (length code.now) self.old }
        ensures { Lists [] (code.now ∷ []) self.old self.new }
    {
        self.lengths[self.count] = code.len() as u32;
        put_bytes(code, &mut self.bytes, self.end);
        self.count += 1;
        self.end += code.len();
    }

    // The second codes that the first ones lack, each from where it begins.
    fn push_lacking(&mut self, first: Codes, second: Codes)
        requires { RoomFor (length second.lengths.now) (length second.bytes.now) self.old }
        ensures { Lists (codes_of first.entry) (codes_of second.entry) self.old self.new }
    {
        let mut at = 0;
        for &length in second.lengths {
            let end = at + length as usize;
            let code = &second.bytes[at..end];
            if !has_code(first, code) {
                self.push(code);
            }
            at = end;
        }
    }
}

// The board of the first codes, in their order, and of the second ones that they lack. It is never inlined, so that the list takes no stack while a board
// is read.
#[inline(never)]
fn join_codes(first: Codes, second: Codes, buffer: &mut [u8]) -> Result<u64, Refusal>
    ensures { Prepares (joined (codes_of first.entry) (codes_of second.entry)) (told result) buffer.old buffer.new }
{
    let mut list = List::of(first);
    list.push_lacking(first, second);
    prepare(&list.lengths[..list.count], &list.bytes[..list.end], buffer)
}

// The board of the first board's codes, in their order, and of those of the second that the first lacks, written to the third buffer's start: its length in
// bytes. A refusal changes nothing.
pub fn join(first: &[u8], second: &[u8], buffer: &mut [u8]) -> Result<u64, Refusal>
    ensures { JoinSays first.now second.now (told result) buffer.old buffer.new }
{
    let first = read_board(first)?;
    let second = read_board(second)?;
    join_codes(first.codes(), second.codes(), buffer)
}
