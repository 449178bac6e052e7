// A look at a file: it is opened, read piece by piece and fed to the board, and its hits are said as they are found.
ghost use Rattle.std.specs.Prelude.{◌≡◌, [], suc, ◌^◌, ◌<◌};
ghost use Rattle.sweep.specs.Disk.{kept_of, openings, no_descriptor, IsOpen};
ghost use Rattle.sweep.specs.Looking.{PartTaken, PieceTaken, Looked, PathLooked};

use crate::files::Disk;
use crate::says::Printer;
use boards::Watch;
use std::rt::HostRuntime;
use streams::NotComplete;

// The bytes that are read at once, at most, and the hits that feeding tells at once.
const PIECE: usize = 262144;

const SPOTS: usize = 4096;

// Room for what feeding tells of hits: their places, and the numbers of their codes, two lists as feeding takes them.
#[derive(Drop)]
pub struct Spots {
    pub places: [u32; SPOTS],
    pub numbers: [u32; SPOTS],
}

// Feeds bytes, as many as have room for their hits, and says the hits; how many were taken, or none if they are refused.
// The board, the watch and the file's number are lent one by one: a struct of them would hold a reference, and its clauses would be no plainer.
fn take_part(
    board: &[u8],
    watch: &mut Watch,
    part: &[u8],
    file: u64,
    spots: &mut Spots,
    printer: &mut Printer,
) -> Result<Option<usize>, NotComplete>
    ensures { PartTaken board.now file watch.old part.now printer.old result watch.new printer.new }
{
    let Ok(f) = boards::feed(board, *watch, part, &mut spots.places, &mut spots.numbers) else {
        return Ok(None);
    };
    *watch = f.watch;
    let n = f.written as usize;
    let places = &spots.places[..n];
    let numbers = &spots.numbers[..n];
    printer.say_hits(file, places, numbers)?;
    Ok(Some(f.taken as usize))
}

// Takes a piece, part by part; whether all of it was taken, which no value goes with.
fn take_piece(
    board: &[u8],
    watch: &mut Watch,
    piece: &[u8],
    file: u64,
    spots: &mut Spots,
    printer: &mut Printer,
) -> Result<bool, NotComplete>
    ensures { PieceTaken board.now file watch.old piece.now printer.old result watch.new printer.new }
{
    let mut rest = piece;
    while !rest.is_empty() {
        let Some(taken) = take_part(board, watch, rest, file, spots, printer)? else {
            return Ok(false);
        };
        rest = &rest[taken..];
    }
    Ok(true)
}

// How a look ends: the file was read to its end, or it cannot be read on.
#[derive(Clone, Copy, PartialEq, Eq)]
pub enum End {
    Whole,
    Unread,
}

// What a look works with: the file that is open, room for a piece of it and for the hits of a part, and what is printed.
#[derive(Drop)]
pub struct Reader {
    pub disk: Disk,
    pub piece: [u8; PIECE],
    pub spots: Spots,
    pub printer: Printer,
}

impl Reader {
    // No file was opened, and nothing printed.
    pub fn new() -> Self
        ensures { (openings result.disk ≡ 0)
            × (kept_of result.disk ≡ no_descriptor)
            × (result.printer.output ≡ 0)
            × (result.printer.page ≡ []) }
    {
        Reader {
            disk: Disk::new(),
            piece: [0u8; PIECE],
            spots: Spots {
                places: [0u32; SPOTS],
                numbers: [0u32; SPOTS],
            },
            printer: Printer::new(),
        }
    }

    // Looks at the open file, piece by piece. Each turn counts bytes that came: so it ends.
    fn look_through(
        &mut self,
        board: &[u8],
        watch: &mut Watch,
        file: u64,
    ) -> Result<End, NotComplete>
        requires { IsOpen self.old.disk }
        ensures { Looked board.now file watch.old self.old result watch.new self.new }
    {
        while let Some(n) = self.disk.read_file(&mut self.piece) {
            if n == 0 {
                return Ok(End::Whole);
            }
            let piece = &self.piece[..n];
            let spots = &mut self.spots;
            let all = take_piece(board, watch, piece, file, spots, &mut self.printer)?;
            if !all {
                return Ok(End::Unread);
            }
        }
        Ok(End::Unread)
    }

    // Looks at the file of a path.
    pub fn look_at(
        &mut self,
        rt: &HostRuntime,
        board: &[u8],
        watch: &mut Watch,
        path: &[u8],
        file: u64,
    ) -> Result<End, NotComplete>
        requires { suc (openings self.old.disk) < 2 ^ 64 }
        ensures { PathLooked board.now file watch.old path.now self.old result watch.new self.new }
    {
        if !self.disk.open_file(rt, path) {
            return Ok(End::Unread);
        }
        self.look_through(board, watch, file)
    }
}
