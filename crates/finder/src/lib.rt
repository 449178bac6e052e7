// Watches (the scan's states), and what the bytes of a text do: where they lead by the arrows of a sheet, and what they cost. piece.rt has the entry point.
// The order of comparisons is one that Hancart's theorem 4.6 covers: the backward labels first, by falling target, then the forward label.
#![tactic(auto)]

ghost use Rattle.std.specs.Prelude.{◌≡◌, ◌+◌, ◌^◌, ◌≤◌, ◌<◌, length};
ghost use Rattle.automaton.specs.Arrows.{arrows_below, back_arrows, try_forward, stepped};
ghost use Rattle.codes.specs.Codes.{longest_code};
ghost use Rattle.finder.specs.Feed.{opened, fit};
ghost use Rattle.finder.specs.Inside.{SoughtBy, Went, Readable, LedFrom, Begun, Running, RanFrom, Skipped, Stayed, StayedOne, led_to};

use automaton::{Arrow, Step};
use sheet::Sheet;

mod piece;
mod sheet;

pub use piece::feed;

// A watch (the state of a scan), document 01's p, n, h and c: the automaton's state, the bytes taken since the opening, the places reported,
// and the labels compared with bytes of the text.
#[derive(Clone, Copy, PartialEq, Eq)]
pub struct Watch {
    pub state: u32,
    pub taken: u32,
    pub hits: u32,
    pub compares: u64,
}

impl Watch {
    // The longest code.
    pub const LONGEST_CODE: u32 = codes::LONGEST;

    // The most bytes that a watch takes.
    pub const LONGEST_TEXT: u32 = 4294967295;

    // Holds the first limit to its definition; `admit` holds the second.
    fn longest_code() -> u32
        ensures { result ≡ longest_code }
    {
        Watch::LONGEST_CODE
    }

    // A new watch.
    pub fn open() -> Watch
        ensures { result ≡ opened }
    {
        Watch {
            state: 0,
            taken: 0,
            hits: 0,
            compares: 0,
        }
    }

    // Whether it is fit for a code of m bytes.
    fn is_fit(self, m: u32) -> bool
        ensures { result ≡ fit m self }
    {
        self.state <= m
            && self.state <= self.taken
            && self.hits <= self.taken
            && self.compares <= 2 * u64::from(self.taken)
    }
}

// ONE BYTE: the labels of a state are compared with it.

impl Sheet<'_> {
    // The first of the targets from number `start` up to `end` whose label is the byte. Each turn compares one label.
    fn backward(&self, start: usize, end: usize, byte: u8) -> Option<usize>
        requires { (start ≤ end) × (end ≤ back_arrows self.now) }
        ensures { SoughtBy self.now start end byte result }
    {
        for l in start..end {
            if byte == self.label(self.target(l)) {
                return Some(l);
            }
        }
        None
    }

    // The forward arrow of p, after `cost` labels were compared.
    fn forward_step(&self, p: usize, byte: u8, cost: u32) -> Step
        requires { (p ≤ length self.now) × (cost ≤ longest_code) }
        ensures { result ≡ try_forward cost self.now p byte }
    {
        if p < self.length() {
            if self.label(p + 1) == byte {
                return Step {
                    state: (p + 1) as u32,
                    cost: cost + 1,
                    arrow: Arrow::Forward,
                };
            }
            return Step {
                state: 0,
                cost: cost + 1,
                arrow: Arrow::Nothing,
            };
        }
        Step {
            state: 0,
            cost,
            arrow: Arrow::Nothing,
        }
    }

    // The step from a state p of 1 or more, since 0 has loops of its own: backward labels by falling target, then the forward one.
    fn follow(&self, p: usize, byte: u8) -> Step
        requires { (1 ≤ p) × (p ≤ length self.now) }
        ensures { result ≡ stepped self.now p byte }
    {
        let start = self.targets_below(p);
        let end = self.targets_below(p + 1);
        if let Some(l) = self.backward(start, end, byte) {
            let t = self.target(l) as u32;
            return Step {
                state: t,
                cost: (l - start + 1) as u32,
                arrow: Arrow::Back(t),
            };
        }
        self.forward_step(p, byte, (end - start) as u32)
    }
}

// MANY BYTES: where they lead, and what they cost. No byte is compared twice with one label. A piece goes with an index in it, and so `Readable` stands at each
// function: a place is told by its index, and `Leads` joins stretches of one piece by theirs.

// Where forward arrows have led: how many bytes followed one, how many backward labels were compared and were not equal, and the arrow of the byte behind them.
// Behind the last byte of the piece or of the code none is looked at, and the arrow is `Forward`.
#[derive(Clone, Copy)]
struct Ahead {
    bytes: usize,
    failed: usize,
    arrow: Arrow,
}

// Where some bytes of a piece have led: the state, what they cost, and the index behind them. Only the last of them may have completed a place.
#[derive(Clone, Copy)]
struct Led {
    state: usize,
    cost: u64,
    at: usize,
}

// The first index from one on at which a byte stands, or the end: one comparison for each byte passed, and one for the byte found. Four bytes to a turn, each
// compared once and in order: about 1.4 times as fast on plan text as `position` alone. An index to go on from is within the piece, here and in the next two.
fn skip(piece: &[u8], from: usize, byte: u8) -> usize
    requires { from ≤ length piece.now }
    ensures { Skipped piece.now from byte result }
{
    let mut i = from;
    let mut rest = &piece[from..];
    while let [a, b, c, d, behind @ ..] = rest {
        if *a == byte {
            return i;
        }
        if *b == byte {
            return i + 1;
        }
        if *c == byte {
            return i + 2;
        }
        if *d == byte {
            return i + 3;
        }
        i += 4;
        rest = behind;
    }
    match rest.iter().position(|b| *b == byte) {
        Some(n) => i + n,
        None => piece.len(),
    }
}

// The first index from one on at which another byte stands, or the end: one comparison for each byte passed, and one for the byte found.
fn stay(piece: &[u8], from: usize, byte: u8) -> usize
    requires { from ≤ length piece.now }
    ensures { Stayed piece.now from byte result }
{
    match piece[from..].iter().position(|b| *b != byte) {
        Some(n) => from + n,
        None => piece.len(),
    }
}

// The bytes from one index to another have led to a state: one comparison for each, and those that failed besides.
fn led_to(state: usize, from: usize, at: usize, failed: usize) -> Led
    requires { (from ≤ at) × (at + failed < 2 ^ 63) }
    ensures { result ≡ led_to state from at failed }
{
    Led {
        state,
        cost: (at - from + failed) as u64,
        at,
    }
}

impl Sheet<'_> {
    // From a state between 0 and m, as long as forward arrows are followed. The targets of a state end where those of the next begin, so the comparisons need
    // no count of their own: worst cases are about 1.4 times as fast as with one.
    fn go_ahead(&self, p: usize, piece: &[u8], i: usize) -> Ahead
        requires { Readable self.now p piece.now i × (1 ≤ p) × (p < length self.now) }
        ensures { Went self.now piece.now p i result }
    {
        let start = self.targets_below(p);
        let count = usize::min(piece.len() - i, self.length() - p);
        let mut l = start;
        for j in 0..count {
            let byte = piece[i + j];
            let end = self.targets_below(p + j + 1);
            if let Some(b) = self.backward(l, end, byte) {
                return Ahead {
                    bytes: j,
                    failed: b - start,
                    arrow: Arrow::Back(self.target(b) as u32),
                };
            }
            if self.label(p + j + 1) != byte {
                return Ahead {
                    bytes: j,
                    failed: end - start,
                    arrow: Arrow::Nothing,
                };
            }
            l = end;
        }
        Ahead {
            bytes: count,
            failed: l - start,
            arrow: Arrow::Forward,
        }
    }

    // From a state between 0 and m: forward arrows, and the byte, if one is looked at, that does not follow one.
    fn stretch(&self, p: usize, piece: &[u8], i: usize) -> Led
        requires { Readable self.now p piece.now i × (1 ≤ p) × (p < length self.now) }
        ensures { LedFrom self.now piece.now p i result }
    {
        let r = self.go_ahead(p, piece, i);
        let n = r.bytes;
        let cost = (r.failed + n) as u64;
        match r.arrow {
            Arrow::Back(t) => Led {
                state: t as usize,
                cost: cost + 1,
                at: i + n + 1,
            },
            Arrow::Forward => Led {
                state: p + n,
                cost,
                at: i + n,
            },
            Arrow::Nothing => Led {
                state: 0,
                cost: cost + 1,
                at: i + n + 1,
            },
        }
    }

    // From any state, as long as it is neither 0 nor m and bytes are left; that may be none. Each turn goes on by as many bytes as a stretch has: no `for`.
    fn run(&self, p: usize, piece: &[u8], from: usize) -> Led
        requires { Running self.now p piece.now from }
        ensures { RanFrom self.now piece.now p from result }
    {
        let m = self.length();
        let mut state = p;
        let mut cost: u64 = 0;
        let mut i = from;
        while i < piece.len() && 0 < state && state < m {
            let s = self.stretch(state, piece, i);
            state = s.state;
            cost += s.cost;
            i = s.at;
        }
        Led { state, cost, at: i }
    }

    // In state 1, below m: the first index from one on whose byte follows no backward arrow, or the end. Such an arrow leads to 1 again, on the code's first
    // byte; where that is the forward label too, there is none, and no byte is compared.
    fn stay_one(&self, back: usize, piece: &[u8], from: usize) -> usize
        requires { (2 ≤ length self.now) × (back ≡ arrows_below self.now 2) × (from ≤ length piece.now) }
        ensures { StayedOne self.now piece.now from result }
    {
        if back == 0 {
            return from;
        }
        stay(piece, from, self.label(1))
    }

    // From state 0, and on as long as no byte leads past state 1 or completes the code: up to 1.5 times as fast on plan text as with a turn for each first byte
    // of the code. A byte costs one comparison, and where it leaves state 1 the backward labels of 1, `back` of them, have failed too. Each turn goes on
    // by as many bytes as were passed: no `for`.
    fn from_start(&self, piece: &[u8], from: usize) -> Led
        requires { Readable self.now 0 piece.now from }
        ensures { LedFrom self.now piece.now 0 from result }
    {
        let m = self.length();
        let back = self.targets_below(2);
        let mut failed = 0;
        let mut i = from;
        while i < piece.len() {
            let j = skip(piece, i, self.label(1));
            if j == piece.len() {
                return led_to(0, from, j, failed);
            }
            if m == 1 {
                return led_to(1, from, j + 1, failed);
            }
            let k = self.stay_one(back, piece, j + 1);
            if k == piece.len() {
                return led_to(1, from, k, failed);
            }
            failed += back;
            i = k + 1;
            if piece[k] == self.label(2) {
                return led_to(2, from, i, failed);
            }
        }
        led_to(0, from, i, failed)
    }

    // How the bytes from any state begin: from 0 as far as `from_start` goes, from m with one step. Elsewhere none is taken yet.
    fn begin(&self, p: usize, piece: &[u8], i: usize) -> Led
        requires { Readable self.now p piece.now i }
        ensures { Begun self.now piece.now p i result }
    {
        if p == 0 {
            return self.from_start(piece, i);
        }
        if p == self.length() {
            let s = self.follow(p, piece[i]);
            return Led {
                state: s.state as usize,
                cost: u64::from(s.cost),
                at: i + 1,
            };
        }
        Led {
            state: p,
            cost: 0,
            at: i,
        }
    }

    // From any state: some bytes, no further than the first place that is completed.
    fn advance(&self, p: usize, piece: &[u8], i: usize) -> Led
        requires { Readable self.now p piece.now i }
        ensures { LedFrom self.now piece.now p i result }
    {
        let s = self.begin(p, piece, i);
        let r = self.run(s.state, piece, s.at);
        Led {
            state: r.state,
            cost: s.cost + r.cost,
            at: r.at,
        }
    }
}
