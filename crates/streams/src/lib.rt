// Standard input, output and error: what the programs share of speaking to the system, and the line with a code that their input begins with. What is promised
// of bytes that the system moved is by receipts, which the proofs of the first three functions make: these do nothing but call the system, and their contracts
// say what each of its answers means. Whether that is true is read in them; what the other functions make of an answer is proved. An `Input` and an `Output`
// count the bytes read and written, and a contract sees each as its count. No program looks at one.
#![tactic(auto)]

ghost use Rattle.std.specs.Prelude.{◌≡◌, true, ℕ, min, length, IfSome};
ghost use Rattle.forms.specs.Line.{goes_on};
ghost use Rattle.forms.specs.Text.{refused_form};
ghost use Rattle.streams.specs.Receipts.{Came, Ended, Heard, Told, Answered, AllSent, CountedOn};
ghost use Rattle.streams.specs.Streams.{DoneOrTold, ReadInto, SentOrTold, ByteRead, LineRead};

use forms::{Line, Page};
use std::io::{Read, Stdin};
use std::marker::Model;

// The descriptors of standard output and standard error.
const STDOUT: i32 = 1;

const STDERR: i32 = 2;

// The system's read of standard input, of which `at` bytes have come: how many it brought, if it did not fail.
fn read_input(mut input: Stdin, at: u64, part: &mut [u8]) -> Option<usize>
    ensures { IfSome result (λ n. Answered Came Ended at n part.new) }
{
    input.read(part).ok()
}

// The system's writing to standard output, behind `at` bytes; whether all were written, as the kit's `write_all` answers: nothing but the call stands here.
fn write_output(at: u64, bytes: &[u8]) -> bool
    ensures { result ≡ true → AllSent at bytes.now }
{
    io::write_all(STDOUT, bytes)
}

// The system's writing to standard error.
fn write_error(bytes: &[u8])
    ensures { Heard bytes.now }
{
    io::write_all(STDERR, bytes);
}

// Something could not be done, and standard error was told that the search is not complete. The output then has no end form.
#[derive(Clone, Copy, PartialEq, Eq)]
pub struct NotComplete;

// Says on standard error that the search is not complete.
pub fn give_up(why: &[u8]) -> NotComplete
    ensures { Told }
{
    write_error(b"not complete: ");
    write_error(why);
    write_error(b"\n");
    NotComplete
}

// Moves a count of bytes on, unless it would wrap.
fn count_on(count: &mut u64, n: usize) -> Result<(), NotComplete>
    ensures { DoneOrTold result (λ _. CountedOn count.old n count.new) (count.new ≡ count.old) }
{
    let Some(sum) = count.checked_add(n as u64) else {
        return Err(give_up(b"more bytes than can be counted"));
    };
    *count = sum;
    Ok(())
}

// Standard input, and how many bytes of it have come.
#[derive(Drop)]
pub struct Input {
    pub stdin: Stdin,
    pub came: u64,
}

impl Model for Input {
    ghost Value = { ℕ };

    ghost view = { λ i. i.came };
}

impl Input {
    // The input before its first byte has come.
    pub fn new(stdin: Stdin) -> Self
        ensures { result ≡ 0 }
    {
        Input { stdin, came: 0 }
    }

    // One read: none only where the input ends, if there is room for one.
    pub fn read_some(&mut self, part: &mut [u8]) -> Result<usize, NotComplete>
        ensures { ReadInto (min 1 (length part.old)) self.old result self.new part.new }
    {
        let Some(n) = read_input(self.stdin, self.came, part) else {
            return Err(give_up(b"the input could not be read"));
        };
        count_on(&mut self.came, n)?;
        Ok(n)
    }

    // One more byte of a line. An input that ends is not of the form.
    fn read_byte(&mut self, line: Line, kept: &mut [u8]) -> Result<Line, NotComplete>
        requires { goes_on line ≡ true }
        ensures { ByteRead line kept.old self.old result kept.new self.new }
    {
        let mut one = [0u8; 1];
        if self.read_some(&mut one)? == 0 {
            return Ok(Line::Wrong);
        }
        Ok(forms::line_byte(line, one[0], kept))
    }

    // The line from where it was read to on, a byte at a time, so that what follows begins where the line ends. Each turn counts a byte that came: so it ends.
    pub fn read_line(&mut self, line: Line, kept: &mut [u8]) -> Result<Line, NotComplete>
        ensures { LineRead line kept.old self.old result kept.new self.new }
    {
        let mut so_far = line;
        while forms::goes_on(so_far) {
            so_far = self.read_byte(so_far, kept)?;
        }
        Ok(so_far)
    }
}

// Standard output, and how many bytes were written to it.
#[derive(Drop)]
pub struct Output {
    pub sent: u64,
}

impl Model for Output {
    ghost Value = { ℕ };

    ghost view = { λ o. o.sent };
}

impl Output {
    // The output before its first byte.
    pub fn new() -> Self
        ensures { result ≡ 0 }
    {
        Output { sent: 0 }
    }

    // Writes bytes.
    pub fn send(&mut self, bytes: &[u8]) -> Result<(), NotComplete>
        ensures { SentOrTold self.old bytes.now result self.new }
    {
        if !write_output(self.sent, bytes) {
            return Err(give_up(b"the output could not be written"));
        }
        count_on(&mut self.sent, bytes.len())
    }

    // Prints a refusal, by its number, as the only line.
    pub fn print_refusal(&mut self, number: u32) -> Result<(), NotComplete>
        ensures { SentOrTold self.old (refused_form number) result self.new }
    {
        let mut page: Page<32> = Page::new();
        page.put_refused(number);
        self.send(page.bytes())
    }
}
