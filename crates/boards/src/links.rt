// The links of the states, by rising length of their starts: `links[2 * g]` is the failure link of state g, the state of the longest shorter start that its
// start ends with, and `links[2 * g + 1]` the length of its start. `nearest[g]` is the number of the longest code that its start ends with, `shorter[j]` that
// of the longest one that code number j, from 0, ends with apart from itself; 0 if there is none.
ghost use Rattle.std.specs.Prelude.{◌≡◌, [], ◌∷◌, ◌++◌, suc, ◌≤◌};
ghost use Rattle.starts.specs.Starts.{state, reached, fallback};
ghost use Rattle.boards.specs.Tables.{codes_of, no_links, OnLinks, ToldLinks, OnState, put_state, OnByte, LinksByte};
ghost use Rattle.boards.specs.Tables.{Leveling, OnLevel, FirstBits, OnLevels, AllLinked};

use crate::given::Codes;
use crate::tree::Tree;
use bits::{top, with_bit, without_top};

// The links, with room for any board's states and codes. The tree is lent beside them and is no field: linking changes the links alone, and so it is said.
#[derive(Drop)]
pub(crate) struct Links {
    pub(crate) links: [u16; 4002],
    pub(crate) nearest: [u8; 2001],
    pub(crate) shorter: [u8; 64],
}

impl Links {
    // No links.
    pub(crate) fn new() -> Links
        ensures { result ≡ no_links }
    {
        Links {
            links: [0; 4002],
            nearest: [0; 2001],
            shorter: [0; 64],
        }
    }

    // The state after one byte more: the child by it, else that of the failure link, at state 0 none.
    pub(crate) fn step(&self, tree: &Tree, from: usize, byte: u8) -> usize
        requires { OnLinks tree.now self.now.links from }
        ensures { ToldLinks tree.now self.now.links from (λ ws u. result ≡ state ws (reached ws (u ++ (byte ∷ [])))) }
    {
        let mut g = from;
        loop {
            let h = tree.child(g, byte);
            if h != 0 {
                return h;
            }
            if g == 0 {
                return 0;
            }
            g = usize::from(self.links[2 * g]);
        }
    }

    // The failure link of the child of state g by a byte.
    fn link_of(&self, tree: &Tree, g: usize, byte: u8) -> usize
        requires { OnLinks tree.now self.now.links g }
        ensures { ToldLinks tree.now self.now.links g (λ ws u. result ≡ state ws (fallback ws (u ++ (byte ∷ [])))) }
    {
        if g == 0 {
            return 0;
        }
        self.step(tree, usize::from(self.links[2 * g]), byte)
    }

    // The links of state g, where f is its failure link: the nearest code is its own, or that of f.
    fn link_state(&mut self, g: usize, f: usize, depth: usize)
        requires { OnState self.old g f depth }
        ensures { self.new ≡ put_state self.old g f depth }
    {
        self.links[2 * g] = f as u16;
        self.links[2 * g + 1] = depth as u16;
        let own = usize::from(self.nearest[g]);
        if own == 0 {
            self.nearest[g] = self.nearest[f];
        } else {
            self.shorter[own - 1] = self.nearest[f];
        }
    }

    // One byte more of a code, the one at s: from the state g of its bytes before that, `depth` of them, to the next, which gets its links if it is this code
    // that it is numbered by.
    fn link_byte(&mut self, tree: &Tree, g: usize, byte: u8, s: usize, depth: usize) -> usize
        requires { OnByte tree.now self.old g byte s depth }
        ensures { LinksByte tree.now self.old self.new g byte s depth result }
    {
        let h = tree.child(g, byte);
        if h == s + 1 {
            let f = self.link_of(tree, g, byte);
            self.link_state(h, f, depth + 1);
        }
        h
    }

    // The states of depth + 1 bytes; `at` has each code's state of `depth` bytes and then that of one more. Bit j of `live` is set where code number j has
    // more than `depth` bytes, and in the result where it has more than one further. The loop takes the codes by their bits, so it passes over those that
    // have ended.
    fn link_level(
        &mut self,
        codes: Codes,
        starts: &[usize; 64],
        tree: &Tree,
        at: &mut [usize; 64],
        live: u64,
        depth: usize,
    ) -> u64
        requires { OnLevel (codes_of codes) starts.now tree.now self.old at.old live depth }
        ensures { Leveling (codes_of codes.entry) self.new at.new result (suc depth) }
    {
        let mut left = live;
        let mut rest: u64 = 0;
        while left != 0 {
            let j = top(left);
            let s = starts[j] + depth;
            at[j] = self.link_byte(tree, at[j], codes.bytes[s], s, depth);
            if depth + 1 < codes.lengths[j] as usize {
                rest = with_bit(rest, j);
            }
            left = without_top(left);
        }
        rest
    }

    // All states, where those of no byte and the numbers of the codes are there. A turn for each length: `live` ends it, so no range has its end.
    pub(crate) fn link_levels(&mut self, codes: Codes, starts: &[usize; 64], tree: &Tree)
        requires { OnLevels (codes_of codes) starts.now tree.now self.old }
        ensures { AllLinked (codes_of codes.entry) self.new }
    {
        let mut at = [0; 64];
        let mut live = first_bits(codes.lengths.len());
        let mut depth = 0;
        while live != 0 {
            live = self.link_level(codes, starts, tree, &mut at, live, depth);
            depth += 1;
        }
    }
}

// The word whose bits below k are set.
fn first_bits(k: usize) -> u64
    requires { k ≤ 64 }
    ensures { FirstBits k result }
{
    let mut bits: u64 = 0;
    for j in 0..k {
        bits = with_bit(bits, j);
    }
    bits
}
