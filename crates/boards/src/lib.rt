// Boards (many codes in one pass, by the automaton of Aho and Corasick): preparing the board of 1 to 64 codes, and its watch. piece.rt has feeding,
// joining.rt two boards joined, and named.rt what both read of a board.
#![tactic(auto)]

ghost use Rattle.std.specs.Prelude.{◌≡◌, OnOk};
ghost use Rattle.runs.specs.Refusals.{refusal_of};
ghost use Rattle.codes.specs.Refusals.{refused_if, told};
ghost use Rattle.starts.specs.Starts.{twice};
ghost use Rattle.boards.specs.Tables.{codes_of, new_tree, no_links};
ghost use Rattle.boards.specs.Feed.{opened};
ghost use Rattle.boards.specs.Entry.{PrepareSays};
ghost use Rattle.boards.specs.Inside.{Boarded};

use crate::given::Codes;
use crate::layout::write_board;
use crate::links::Links;
use crate::tree::Tree;
use runs::Refusal;

mod fronts;
mod given;
mod joining;
mod layout;
mod links;
mod named;
mod piece;
mod tree;

pub use joining::join;
pub use piece::feed;

// A board's watch (the state of a scan): the automaton's state, the bytes taken since the opening, and the hits.
#[derive(Clone, Copy, PartialEq, Eq)]
pub struct Watch {
    pub state: u32,
    pub taken: u32,
    pub hits: u64,
}

impl Watch {
    // The most bytes that a watch takes.
    pub const LONGEST_TEXT: u32 = 4294967295;

    // A watch just opened.
    pub fn open() -> Watch
        ensures { result ≡ opened }
    {
        Watch {
            state: 0,
            taken: 0,
            hits: 0,
        }
    }
}

// The most codes of a board, the most bytes that they have together, and the room that preparing and joining ask for.
pub const MOST_CODES: usize = 64;

pub const MOST_BYTES: usize = 2000;

pub const ROOM: usize = 32768;

// The tree and the links of codes, in new ones; refused if a code stands there twice.
fn build(codes: Codes, tree: &mut Tree, links: &mut Links) -> Result<(), Refusal>
    requires { (tree.old ≡ new_tree) × (links.old ≡ no_links) }
    ensures refusal { refusal_of result ≡ refused_if 11 (twice (codes_of codes.entry)) }
    ensures built { OnOk result (Boarded (codes_of codes.entry) tree.new links.new) }
{
    let mut starts = [0; 64];
    tree.add_codes(codes, &mut links.nearest, &mut starts)?;
    links.link_levels(codes, &starts, tree);
    Ok(())
}

// The board of the codes that stand one after the other in `bytes`, with these lengths, written to the buffer's start: its length in bytes. A refusal changes
// nothing.
pub fn prepare(lengths: &[u32], bytes: &[u8], buffer: &mut [u8]) -> Result<u64, Refusal>
    ensures { PrepareSays lengths.now bytes.now (told result) buffer.old buffer.new }
{
    let codes = Codes::new(lengths, bytes)?;
    let mut tree = Tree::new();
    let mut links = Links::new();
    build(codes, &mut tree, &mut links)?;
    if buffer.len() < ROOM {
        return Err(Refusal::ShortBuffer);
    }
    Ok(write_board(codes, &links, buffer) as u64)
}
