// Document 01's own samples, run: its bench samples, its refusals, and its errors near at hand, through the library's entry points; the control bytes of
// request 107, the lengths of request 103 and two boards of request 102. Each function here is proved safe and ending; what it answers is seen by running it.
// tests/beside.c and tests/boards.c hold the library to a naive search, and to the document's machine, on many more codes and texts.
#![tactic(auto)]

mod bench;
mod board;
mod controls;
mod lengths;
mod refusals;

ghost use Rattle.std.specs.Prelude.{◌≤◌, length};

use finder::Watch;
use runs::Refusal;

// What each byte of a lent buffer is before a call.
const UNTOUCHED: u8 = 238;

// What each number of a lent list is before a call: no place of any text here.
const UNWRITTEN: u32 = 4000000000;

// How many samples were run, and how many of them came out otherwise than they should.
#[derive(Clone, Copy)]
struct Tally {
    run: usize,
    wrong: usize,
    ghost within: { wrong ≤ run },
}

impl Tally {
    // No samples yet.
    fn new() -> Tally {
        Tally { run: 0, wrong: 0 }
    }

    // One sample more.
    fn add(&mut self, right: bool) {
        if self.run < usize::MAX {
            self.run += 1;
            if !right {
                self.wrong += 1;
            }
        }
    }

    // The group's name, how many samples it ran and how many of them were wrong.
    fn print(&self, name: &[u8]) {
        io::write_all(1, name);
        io::write_all(1, b" ");
        io::print_decimal(1, self.run as u64);
        io::write_all(1, b", wrong ");
        io::print_decimal(1, self.wrong as u64);
        io::write_all(1, b"\n");
    }
}

// Whether a buffer is as before a call.
fn is_untouched(buffer: &[u8]) -> bool {
    buffer.iter().all(|&byte| byte == UNTOUCHED)
}

// Whether a buffer starts with these bytes, and the byte behind them is as before.
fn starts_with_just(buffer: &[u8], bytes: &[u8]) -> bool {
    match buffer.strip_prefix(bytes) {
        Some([first, ..]) => *first == UNTOUCHED,
        _ => false,
    }
}

// Whether a list starts with these places, and the rest of it is as before.
fn is_list(list: &[u32], places: &[u32]) -> bool {
    match list.strip_prefix(places) {
        Some(rest) => rest.iter().all(|&place| place == UNWRITTEN),
        None => false,
    }
}

// The number of a refusal in document 01's table, 0 for none: the samples are the document's, which has numbers.
fn refusal<T: Drop>(answer: Result<T, Refusal>) -> u32 {
    match answer {
        Ok(_) => 0,
        Err(refusal) => refusal.number(),
    }
}

fn main() {
    let groups: [(&[u8], Tally); 8] = [
        (b"sheets", bench::sheets()),
        (b"searches", bench::searches()),
        (b"errors near at hand", bench::errors()),
        (b"refused", refusals::refused()),
        (b"accepted on the other side", refusals::accepted()),
        (b"control bytes", controls::controls()),
        (b"lengths", lengths::lengths()),
        (b"board", board::board()),
    ];
    let mut wrong: usize = 0;
    for (name, tally) in groups {
        tally.print(name);
        wrong = wrong.saturating_add(tally.wrong);
    }
    io::write_all(1, b"wrong ");
    io::print_decimal(1, wrong as u64);
    io::write_all(1, b"\n");
}
