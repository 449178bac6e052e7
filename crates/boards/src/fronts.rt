// Passing over bytes at which no code begins. Codes are told apart by their first bytes, as many as the shortest code has, but at most four (`depth`): a code
// begins where these stand. `words` has four rows of 256 words, with a bit for each code: in row q, below `depth`, bit 63 - j of word c is set where byte q of
// code number j, both from 0, is c; in the rows from `depth` on all bits are set. So the bits that the words of four bytes of a text have in common are those
// of the codes that begin at the first of them, the first code's the highest; where there are none, that byte need not be looked up in state 0.
ghost use Rattle.std.specs.Prelude.{◌≡◌, ◌+◌, ◌*◌, ◌<◌, ◌≤◌, length};
ghost use Rattle.boards.specs.Tables.{codes_of};
ghost use Rattle.boards.specs.Fronts.{Shortest, CodePut, new_fronts, Fronts as FrontsOf, word_at, pair_at, common_at};
ghost use Rattle.boards.specs.Fronts.{NoneBegins, Passed, Stopped, OnEnter, Enters};

use crate::given::Codes;
use bits::{top, with_bit};

// The words of the codes' first bytes, where each code begins, and how many first bytes have a row.
#[derive(Drop)]
pub(crate) struct Fronts {
    words: [u64; 1024],
    starts: [usize; 64],
    pub(crate) depth: usize,
}

impl Fronts {
    // No code's.
    pub(crate) fn new() -> Fronts
        ensures { result ≡ new_fronts }
    {
        Fronts {
            words: [0; 1024],
            starts: [0; 64],
            depth: 0,
        }
    }

    // The bits of all codes, and where each begins, in new ones. So s is kept.
    pub(crate) fn put_codes(&mut self, codes: Codes)
        requires { self.old ≡ new_fronts }
        ensures { FrontsOf (codes_of codes.entry) self.new }
    {
        self.depth = shortest(codes.lengths);
        let mut s = 0;
        for (j, &length) in codes.lengths.iter().enumerate() {
            self.starts[j] = s;
            put_front(&mut self.words, &codes.bytes[s..s + self.depth], j);
            s += length as usize;
        }
        self.words[256 * self.depth..].fill(u64::MAX);
    }

    // The word of byte number q from i on.
    fn word(&self, piece: &[u8], i: usize, q: usize) -> u64
        requires { (q < 4) × (i + q < length piece.now) }
        ensures { result ≡ word_at self.now.words piece.now i q }
    {
        self.words[256 * q + usize::from(piece[i + q])]
    }

    // The bits that the words of the first two bytes at i have in common: no other code can begin there.
    fn pair(&self, piece: &[u8], i: usize) -> u64
        requires { i + 1 < length piece.now }
        ensures { result ≡ pair_at self.now.words piece.now i }
    {
        self.word(piece, i, 0) & self.word(piece, i, 1)
    }

    // The bits of the codes that begin at i.
    fn common(&self, piece: &[u8], i: usize) -> u64
        requires { i + 3 < length piece.now }
        ensures { result ≡ common_at self.now.words piece.now i }
    {
        self.pair(piece, i) & (self.word(piece, i, 2) & self.word(piece, i, 3))
    }

    // Whether no code begins at i and the three indexes behind it. In plans the first two bytes mostly decide.
    fn none_begins(&self, piece: &[u8], i: usize) -> bool
        requires { i + 6 < length piece.now }
        ensures { NoneBegins self.now.words piece.now i result }
    {
        let front = self.pair(piece, i) | self.pair(piece, i + 1);
        let back = self.pair(piece, i + 2) | self.pair(piece, i + 3);
        if front | back == 0 {
            return true;
        }
        let first = self.common(piece, i) | self.common(piece, i + 1);
        let last = self.common(piece, i + 2) | self.common(piece, i + 3);
        first | last == 0
    }

    // An index, from one on, up to which no code begins: one of it and the three behind it may have one, or at most 18 bytes are left. Sixteen a turn:
    // a range would take the turns, but where they end is the answer.
    fn pass_blocks(&self, piece: &[u8], from: usize) -> usize
        requires { from < length piece.now }
        ensures { Passed self.now.words piece.now from result }
    {
        let mut i = from;
        while i + 18 < piece.len() {
            if !self.none_begins(piece, i) {
                return i;
            }
            if !self.none_begins(piece, i + 4) {
                return i + 4;
            }
            if !self.none_begins(piece, i + 8) {
                return i + 8;
            }
            if !self.none_begins(piece, i + 12) {
                return i + 12;
            }
            i += 16;
        }
        i
    }

    // The first index, from one on, where a code begins; the first with fewer than four bytes left if there is none before it. A range would have to name that
    // end a second time behind the loop.
    pub(crate) fn pass(&self, piece: &[u8], from: usize) -> usize
        requires { from < length piece.now }
        ensures { Stopped self.now.words piece.now from result }
    {
        let mut i = self.pass_blocks(piece, from);
        while i + 3 < piece.len() {
            if self.common(piece, i) != 0 {
                return i;
            }
            i += 1;
        }
        i
    }

    // The state after the first bytes, `depth` of them, of a code that begins at i.
    pub(crate) fn enter(&self, piece: &[u8], i: usize) -> usize
        requires { OnEnter self.now piece.now i }
        ensures { Enters self.now piece.now i result }
    {
        self.starts[63 - top(self.common(piece, i))] + self.depth
    }
}

// The length of the shortest code, but at most 4.
fn shortest(lengths: &[u32]) -> usize
    ensures { Shortest lengths.now result }
{
    let mut depth = 4;
    for &length in lengths {
        depth = depth.min(length as usize);
    }
    depth
}

// The bits of code number j, whose first bytes these are, in the first rows.
fn put_front(words: &mut [u64; 1024], front: &[u8], j: usize)
    requires { (length front.now ≤ 4) × (j < 64) }
    ensures { CodePut front.now (length front.now) j words.old words.new }
{
    for (q, &byte) in front.iter().enumerate() {
        let at = 256 * q + usize::from(byte);
        words[at] = with_bit(words[at], 63 - j);
    }
}
