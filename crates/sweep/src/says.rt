// What is printed: the forms of hits, unread files and the end are gathered on a page, and sent when it is full.
ghost use Rattle.std.specs.Prelude.{◌≡◌, [], ◌*◌, ◌≤◌, length};
ghost use Rattle.runs.specs.Refusals.{refusal_number};
ghost use Rattle.forms.specs.Text.{PutWithin, refused_form};
ghost use Rattle.boards.specs.Entry.{paired};
ghost use Rattle.streams.specs.Streams.{SentOrTold};
ghost use Rattle.sweep.specs.Forms.{hit_form, hit_forms, unread_form, total_form};
ghost use Rattle.sweep.specs.Saying.{Says, Made};

use crate::counts::Counts;
use forms::Page;
use runs::Refusal;
use streams::{NotComplete, Output};

// Room for what is said of 4,096 hits.
const GATHERED: usize = 49 * 4096;

// Standard output, and what is gathered for it.
#[derive(Drop)]
pub struct Printer {
    output: Output,
    pub page: Page<GATHERED>,
}

// Writes the form of a hit, of 49 bytes at most.
fn put_hit(page: &mut Page<GATHERED>, file: u64, place: u32, number: u32)
    ensures { PutWithin 49 (hit_form file place number) GATHERED page.old page.new }
{
    page.put_number(b"(hit ", file);
    page.put_number(b" ", u64::from(place));
    page.put_number(b" ", u64::from(number));
    page.put(b")\n");
}

// Writes the forms of as many hits as both lists have, each of 49 bytes at most.
fn put_hits(page: &mut Page<GATHERED>, file: u64, places: &[u32], numbers: &[u32])
    ensures { PutWithin (49 * length places.now) (hit_forms file (paired places.now numbers.now)) GATHERED page.old
        page.new }
{
    for (&place, &number) in places.iter().zip(numbers) {
        put_hit(page, file, place, number);
    }
}

// Writes the form of a file that was not read to its end, of 30 bytes at most.
fn put_unread(page: &mut Page<GATHERED>, file: u64)
    ensures { PutWithin 30 (unread_form file) GATHERED page.old page.new }
{
    page.put_number(b"(unread ", file);
    page.put(b")\n");
}

// Writes the form of the end, of 122 bytes at most.
fn put_total(page: &mut Page<GATHERED>, counts: Counts)
    ensures { PutWithin 122 (total_form counts.files counts.unread counts.bytes counts.hits) GATHERED page.old page.new }
{
    page.put_number(b"(end (files ", counts.files);
    page.put_number(b") (unread ", counts.unread);
    page.put_number(b") (bytes ", counts.bytes);
    page.put_number(b") (hits ", counts.hits);
    page.put(b"))\n");
}

impl Printer {
    // Nothing is sent or gathered.
    pub fn new() -> Self
        ensures { (result.output ≡ 0) × (result.page ≡ []) }
    {
        Printer {
            output: Output::new(),
            page: Page::new(),
        }
    }

    // Sends what is gathered.
    pub fn send_gathered(&mut self) -> Result<(), NotComplete>
        ensures { Says self.old [] result self.new × (self.new.page ≡ []) }
    {
        let sent = self.output.send(self.page.bytes());
        self.page.clear();
        sent
    }

    // Makes room for more bytes: sends what is gathered if they do not fit behind it.
    fn make_room(&mut self, most: usize) -> Result<(), NotComplete>
        requires { most ≤ GATHERED }
        ensures { Made self.old most result self.new }
    {
        if self.page.left() < most {
            return self.send_gathered();
        }
        Ok(())
    }

    // Says the hits of two lists, places and numbers. This and the next two are one by one: a closure for the form would have the form and its most bytes said
    // once more in the contract.
    pub fn say_hits(
        &mut self,
        file: u64,
        places: &[u32],
        numbers: &[u32],
    ) -> Result<(), NotComplete>
        requires { 49 * length places.now ≤ GATHERED }
        ensures { Says self.old (hit_forms file (paired places.now numbers.now)) result self.new }
    {
        self.make_room(49 * places.len())?;
        put_hits(&mut self.page, file, places, numbers);
        Ok(())
    }

    // Says that a file was not read to its end.
    pub fn say_unread(&mut self, file: u64) -> Result<(), NotComplete>
        ensures { Says self.old (unread_form file) result self.new }
    {
        self.make_room(30)?;
        put_unread(&mut self.page, file);
        Ok(())
    }

    // Says the end.
    pub fn say_total(&mut self, counts: Counts) -> Result<(), NotComplete>
        ensures { Says self.old (total_form counts.files counts.unread counts.bytes counts.hits) result self.new }
    {
        self.make_room(122)?;
        put_total(&mut self.page, counts);
        Ok(())
    }

    // Prints a refusal as the only line.
    pub fn print_refusal(&mut self, refusal: Refusal) -> Result<(), NotComplete>
        ensures { SentOrTold self.old.output (refused_form (refusal_number refusal)) result self.new.output }
    {
        self.output.print_refusal(refusal.number())
    }
}
