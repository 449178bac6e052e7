// A checked sheet: only the functions of this file know where its length, counts and targets are, and what they tell is told of the code.
ghost use Rattle.std.specs.Prelude.{◌≡◌, true, false, List, ℕ, ◌+◌, ◌≤◌, ◌<◌, length, MatchOption};
ghost use Rattle.automaton.specs.Arrows.{label, arrows_below, back_arrows};
ghost use Rattle.codes.specs.Codes.{longest_code};
ghost use Rattle.sheets.specs.Sheet.{number_width, named, begins};
ghost use Rattle.finder.specs.Inside.{Coded, target_of};

use sheets::{number_width, read_sheet};
use std::marker::Model;

// The bytes of a sheet, whatever stands behind it, and the code in them. Contracts see the code.
#[derive(Drop)]
pub struct Sheet<'a> {
    bytes: &'a [u8],
    code: &'a [u8],
}

impl<'a> Model for Sheet<'a> {
    ghost Value = { List ℕ };

    ghost view = { λ s. s.code.now };

    ghost invariant = { λ s. Coded s.bytes.now s.code.now };
}

impl<'a> Sheet<'a> {
    // The sheet that a buffer begins with, if it begins with one.
    pub fn read(buffer: &'a [u8]) -> Option<Sheet<'a>>
        ensures { MatchOption result (begins buffer.now ≡ false) (λ w. (begins buffer.now ≡ true) × (w ≡ named buffer.now)) }
    {
        let code = read_sheet(buffer)?;
        Some(Sheet {
            bytes: buffer,
            code,
        })
    }

    // How long the code is. What is read of a sheet is told to be at most the longest code, here and below: callers add up what they read.
    pub fn length(&self) -> usize
        ensures { (result ≡ length self.now) × (1 ≤ result) × (result ≤ longest_code) }
    {
        self.code.len()
    }

    // How many bytes a number has on it.
    fn width(&self) -> usize
        ensures { result ≡ number_width (length self.now) }
    {
        number_width(self.code.len())
    }

    // How many backward targets the states below s have, s being 1 or more: the number of the first one of s. The compiler makes the loops that ask for them
    // once for each width of a number, so codes with a short sheet are read as fast as when there were no others.
    pub(crate) fn targets_below(&self, s: usize) -> usize
        requires { (1 ≤ s) × (s ≤ length self.now + 1) }
        ensures { (result ≡ arrows_below self.now s) × (result ≤ longest_code) × (length self.now ≤ longest_code) }
    {
        let m = self.code.len();
        if self.width() == 1 {
            return usize::from(self.bytes[m + s]);
        }
        let at = m + 1 + 2 * s;
        usize::from(u16::from_be_bytes([self.bytes[at], self.bytes[at + 1]]))
    }

    // Target number l of all the code's, from 0.
    pub(crate) fn target(&self, l: usize) -> usize
        requires { l < back_arrows self.now }
        ensures { (result ≡ target_of self.now l) × (1 ≤ result) × (result ≤ length self.now) × (result ≤ longest_code) }
    {
        let m = self.code.len();
        if self.width() == 1 {
            return usize::from(self.bytes[2 * m + 2 + l]);
        }
        let at = 3 * m + 5 + 2 * l;
        usize::from(u16::from_be_bytes([self.bytes[at], self.bytes[at + 1]]))
    }

    // The label of an arrow with target t.
    pub(crate) fn label(&self, t: usize) -> u8
        requires { (1 ≤ t) × (t ≤ length self.now) }
        ensures { result ≡ label self.now t }
    {
        self.code[t - 1]
    }
}
