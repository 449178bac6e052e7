// What is counted of the files that were passed.
ghost use Rattle.std.specs.Prelude.{◌≡◌, ◌+◌, ◌^◌, ◌≤◌, MatchResult};
ghost use Rattle.streams.specs.Receipts.{Told};

use crate::look::End;
use crate::says::Printer;
use boards::Watch;
use streams::NotComplete;

// The files passed, and those of them not read to their end; the bytes searched and the hits.
#[derive(Clone, Copy)]
pub struct Counts {
    pub files: u64,
    pub unread: u64,
    pub bytes: u64,
    pub hits: u64,
    ghost few: { unread ≤ files },
}

// Gives up where a count and what is to be added do not fit into 64 bits.
pub fn give_up_counting(count: u64, more: u64, why: &[u8]) -> NotComplete
    requires { 2 ^ 64 ≤ count + more }
    ensures { Told }
{
    streams::give_up(why)
}

// A count with more of what it counts. It is not the counting of streams, which says that bytes are more than can be counted, whatever they count.
pub fn add(count: u64, more: u64, why: &[u8]) -> Result<u64, NotComplete>
    ensures { MatchResult result (λ sum. sum ≡ count + more) (λ _. Told) }
{
    let Some(sum) = count.checked_add(more) else {
        return Err(give_up_counting(count, more, why));
    };
    Ok(sum)
}

impl Counts {
    ghost use Rattle.std.specs.Prelude.{◌≡◌, ◌<◌};
    ghost use Rattle.sweep.specs.Swept.{Passed};

    // No file was passed.
    pub fn new() -> Self
        ensures { (result.files ≡ 0) × (result.unread ≡ 0) × (result.bytes ≡ 0) × (result.hits ≡ 0) }
    {
        Counts {
            files: 0,
            unread: 0,
            bytes: 0,
            hits: 0,
        }
    }

    // A file, the last one that is counted, was looked at: counts what was found, and says so if it was not read to its end.
    pub fn pass_file(
        &mut self,
        file: u64,
        watch: Watch,
        end: End,
        printer: &mut Printer,
    ) -> Result<(), NotComplete>
        requires { self.old.unread < self.old.files }
        ensures { Passed self.old file watch end printer.old result self.new printer.new }
    {
        self.bytes = add(
            self.bytes,
            u64::from(watch.taken),
            b"more bytes than can be counted",
        )?;
        self.hits = add(self.hits, watch.hits, b"more hits than can be counted")?;
        if end == End::Unread {
            self.unread += 1;
            printer.say_unread(file)?;
        }
        Ok(())
    }
}
