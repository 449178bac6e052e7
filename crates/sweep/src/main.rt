// sweep: reads lines `(code X)`, an empty line and then paths, each ended by a byte 0, from standard input; reads each file, and prints the codes' places in
// each, the files that were not read to their end, and at the end what was counted.
// `run` is the program, and its contract says what it does with the bytes that came. Only what the system did is left to reading, in crates/streams and
// files.rt. An `Input` counts the bytes read, and a `Printer` has those written, and nothing here looks at them.
#![tactic(auto)]

ghost use Rattle.std.specs.Prelude.{◌≡◌};
ghost use Rattle.sweep.specs.Swept.{sent_of, IsNew};
ghost use Rattle.sweep.specs.Program.{Ran};

mod counts;
mod files;
mod head;
mod list;
mod look;
mod says;

use crate::head::read_head;
use crate::list::Sweep;
use std::rt::HostRuntime;
use streams::{Input, NotComplete};

// The program.
fn run(rt: &HostRuntime, input: &mut Input, sweep: &mut Sweep) -> Result<(), NotComplete>
    requires { (input.old ≡ 0) × IsNew sweep.old }
    ensures { Ran result input.new (sent_of sweep.new) }
{
    let mut board = [0u8; boards::ROOM];
    let head = read_head(input, &mut board)?;
    if let Err(refusal) = head {
        return sweep.reader.printer.print_refusal(refusal);
    }
    sweep.sweep_list(rt, &board, input)
}

fn main(rt: HostRuntime) {
    let mut input = Input::new(rt.stdin());
    let mut sweep = Sweep::new();
    let _ = run(&rt, &mut input, &mut sweep);
}
