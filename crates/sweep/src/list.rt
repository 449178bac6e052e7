// The list of paths: it is read block by block and cut at its zeros, and the file of each path is looked at.
ghost use Rattle.std.specs.Prelude.{◌≡◌, ◌≢◌};
ghost use Rattle.streams.specs.Receipts.{Told};

use crate::counts::{Counts, add};
use crate::files::PATH_MAX;
use crate::look::Reader;
use boards::Watch;
use forms::Page;
use std::rt::HostRuntime;
use streams::{Input, NotComplete};

// The bytes of the list that are read at once, at most.
const BLOCK: usize = 65536;

// Room for one byte more than the longest path that is opened.
const NAME: usize = PATH_MAX;

// How far a sweep has come: the next path so far, of which as many bytes are kept as tell whether it is too long to be opened; what is counted; and what a
// look works with. Each file that was passed is an opening. The board is lent beside it: it is made after this, from the head.
#[derive(Drop)]
pub struct Sweep {
    pub name: Page<NAME>,
    pub counts: Counts,
    pub reader: Reader,
    ghost opened: { reader.disk.openings ≡ counts.files },
}

// Gives up where the list ends within a path, of which so many bytes are kept.
fn give_up_within(kept: usize) -> NotComplete
    requires { kept ≢ 0 }
    ensures { Told }
{
    streams::give_up(b"the list ends within a path")
}

impl Sweep {
    ghost use Rattle.std.specs.Prelude.{[], ◌∷◌};
    ghost use Rattle.sweep.specs.Swept.{IsNew, ListedOn};
    ghost use Rattle.sweep.specs.Program.{Listed, Finished, Sweeps};

    // Nothing of the list has come, and nothing was printed.
    pub fn new() -> Self
        ensures { IsNew result }
    {
        Sweep {
            name: Page::new(),
            counts: Counts::new(),
            reader: Reader::new(),
        }
    }

    // A path has ended: looks at its file.
    fn end_path(&mut self, rt: &HostRuntime, board: &[u8]) -> Result<(), NotComplete>
        ensures { ListedOn board.now (0 ∷ []) self.old result self.new }
    {
        let file = self.counts.files;
        self.counts.files = add(file, 1, b"more files than can be counted")?;
        let mut watch = Watch::open();
        let end = self
            .reader
            .look_at(rt, board, &mut watch, self.name.bytes(), file)?;
        self.name.clear();
        self.counts
            .pass_file(file, watch, end, &mut self.reader.printer)
    }

    // One more byte of the list: the path ends, or goes on.
    fn list_byte(&mut self, rt: &HostRuntime, board: &[u8], byte: u8) -> Result<(), NotComplete>
        ensures { ListedOn board.now (byte ∷ []) self.old result self.new }
    {
        if byte == 0 {
            return self.end_path(rt, board);
        }
        self.name.put(&[byte]);
        Ok(())
    }

    // The bytes of a block of the list, until something fails.
    fn list_bytes(
        &mut self,
        rt: &HostRuntime,
        board: &[u8],
        block: &[u8],
    ) -> Result<(), NotComplete>
        ensures { ListedOn board.now block.now self.old result self.new }
    {
        for byte in block {
            self.list_byte(rt, board, *byte)?;
        }
        Ok(())
    }

    // Reads the list block by block, and takes its bytes. Each turn counts bytes that came: so it ends.
    fn list_through(
        &mut self,
        rt: &HostRuntime,
        board: &[u8],
        input: &mut Input,
    ) -> Result<(), NotComplete>
        ensures { Listed board.now self.old input.old result self.new input.new }
    {
        let mut block = [0u8; BLOCK];
        loop {
            let n = input.read_some(&mut block)?;
            if n == 0 {
                return Ok(());
            }
            self.list_bytes(rt, board, &block[..n])?;
        }
    }

    // Says the end, and sends what is gathered.
    fn finish(&mut self) -> Result<(), NotComplete>
        ensures { Finished self.old result self.new }
    {
        let kept = self.name.bytes().len();
        if kept != 0 {
            return Err(give_up_within(kept));
        }
        self.reader.printer.say_total(self.counts)?;
        self.reader.printer.send_gathered()
    }

    // Sweeps the files of the list.
    pub fn sweep_list(
        &mut self,
        rt: &HostRuntime,
        board: &[u8],
        input: &mut Input,
    ) -> Result<(), NotComplete>
        ensures { Sweeps board.now self.old input.old result self.new input.new }
    {
        self.list_through(rt, board, input)?;
        self.finish()
    }
}
