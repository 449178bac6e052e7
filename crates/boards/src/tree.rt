// The tree of the codes' starts (a trie): which start follows another by a byte. Each code in turn is followed as far as the codes before it go, and branches
// off there. The starts within the rest of it follow one another in the code itself: `next` has the byte behind each, 256 at a code's end. Code number j, from
// 0, branches off at the state g where bit j of `forks[g]` is set, by the byte c where bit j of `keys[c]` is, and to the state `heads[j]`. So a child is found
// by two looks, however many codes branch off at one state.
ghost use Rattle.std.specs.Prelude.{◌≡◌, [], ◌+◌, ◌<◌, OnOk, length};
ghost use Rattle.runs.specs.Refusals.{refusal_of};
ghost use Rattle.codes.specs.Refusals.{refused_if};
ghost use Rattle.starts.specs.Starts.{twice};
ghost use Rattle.boards.specs.Tables.{codes_of, new_tree, OnTree, ToldTree, child_of, Labelled, OnFollow, Follows, OnCode, Adds, Ended, AllAdded};

use crate::given::Codes;
use bits::{top, with_bit};
use runs::Refusal;

// The tree, with room for any board's codes.
#[derive(Drop)]
pub(crate) struct Tree {
    next: [u16; 2001],
    forks: [u64; 2001],
    keys: [u64; 256],
    heads: [u16; 64],
}

// How far a code is followed: the state, and the number of its bytes.
#[derive(Clone, Copy)]
struct Followed {
    state: usize,
    depth: usize,
}

impl Tree {
    // A tree without anything in it.
    pub(crate) fn new() -> Tree
        ensures { result ≡ new_tree }
    {
        Tree {
            next: [0; 2001], // not 256 already: lists of zeros are not copied when the tree is handed over
            forks: [0; 2001],
            keys: [0; 256],
            heads: [0; 64],
        }
    }

    // The state of the start of state g and one byte more; 0, which is the state of no byte and so no child, if there is none. No Option, since that is how
    // `child_of` says it, and `link_byte` takes a child that it knows to be there.
    pub(crate) fn child(&self, g: usize, byte: u8) -> usize
        requires { OnTree self.now g }
        ensures { ToldTree self.now g (λ ws u. result ≡ child_of ws u byte) }
    {
        let c = usize::from(byte);
        if usize::from(self.next[g]) == c {
            return g + 1;
        }
        let both = self.forks[g] & self.keys[c];
        if both == 0 {
            return 0;
        }
        usize::from(self.heads[top(both)])
    }

    // Follows a code as far as the tree goes.
    fn follow(&self, code: &[u8]) -> Followed
        requires { OnFollow self.now }
        ensures { Follows self.now code.now result.state result.depth }
    {
        let mut g = 0;
        for (d, &byte) in code.iter().enumerate() {
            let h = self.child(g, byte);
            if h == 0 {
                return Followed { state: g, depth: d };
            }
            g = h;
        }
        Followed {
            state: g,
            depth: code.len(),
        }
    }

    // Adds code number j, whose bytes begin at s, to those before it; its number, from 1, stands in `ends` at its state. False if it is one of them:
    // a plain answer, of which `add_codes` makes the refusal.
    fn add_code(&mut self, ends: &mut [u8; 2001], code: &[u8], j: usize, s: usize) -> bool
        requires { OnCode self.old ends.old code.now j s }
        ensures { Adds self.old self.new ends.old ends.new code.now j s result }
    {
        let w = self.follow(code);
        label_code(&mut self.next, code, s);
        let mut end = w.state;
        if w.depth < code.len() {
            let c = usize::from(code[w.depth]);
            self.forks[w.state] = with_bit(self.forks[w.state], j);
            self.keys[c] = with_bit(self.keys[c], j);
            self.heads[j] = (s + w.depth + 1) as u16;
            end = s + code.len();
        }
        if ends[end] != 0 {
            return false;
        }
        ends[end] = (j + 1) as u8;
        true
    }

    // The tree of all codes, in a new one; `starts` gets where each begins, so s is kept. Refused if a code stands there twice.
    pub(crate) fn add_codes(
        &mut self,
        codes: Codes,
        ends: &mut [u8; 2001],
        starts: &mut [usize; 64],
    ) -> Result<(), Refusal>
        requires { (self.old ≡ new_tree) × Ended [] ends.old }
        ensures refusal { refusal_of result ≡ refused_if 11 (twice (codes_of codes.entry)) }
        ensures added { OnOk result (AllAdded (codes_of codes.entry) self.new ends.new starts.new) }
    {
        self.next.fill(256);
        let mut s = 0;
        for (j, &length) in codes.lengths.iter().enumerate() {
            let end = s + length as usize;
            starts[j] = s;
            if !self.add_code(ends, &codes.bytes[s..end], j, s) {
                return Err(Refusal::CodeTwice);
            }
            s = end;
        }
        Ok(())
    }
}

// The bytes of a code that begins at s, each behind the one before it.
fn label_code(next: &mut [u16; 2001], code: &[u8], s: usize)
    requires { s + length code.now < length next.old }
    ensures { Labelled s code.now next.old next.new }
{
    for i in 1..code.len() {
        next[s + i] = u16::from(code[i]);
    }
}
