// Filling a sheet by the rule of Hancart's figure 5, each state's arrows from those of its longest border, in a number of steps linear in the code's length.
// Short and wide sheets differ in the bytes of a number and in the 0 byte before a wide one: what is below is made for each of them from one text.
ghost use Rattle.std.specs.Prelude.{◌≡◌, ◌+◌, ◌^◌, ◌≤◌, ◌<◌, length};
ghost use Rattle.std.proofs.lemmas.List.Edits.{sets};
ghost use Rattle.sheets.specs.Sheet.{number, count_place, target_place, sheet_room};
ghost use Rattle.sheets.specs.Inside.{Reads, Numbered, Fits, StartRead, FrontMade, CodeMade, FilledTo, TargetReady};
ghost use Rattle.sheets.specs.Inside.{put_result, put_buffer, StateReady, StateMade, StatesMade, SheetMade, Freshly};

use crate::{code_start, same_front};

// How far a sheet is filled: the targets stored, and the longest border of the next state.
#[derive(Clone, Copy)]
pub struct Filled {
    stored: usize,
    border: usize,
}

// The sheet that is to be filled of a code, with numbers of WIDTH bytes: one on a short sheet, two on a wide one. Each width is made apart: short codes are
// prepared up to 1.5 times as fast by it. It is handed by value: by reference, wide sheets took up to 1.4 times as long.
// The buffer is lent beside it: with a `&mut` in the struct, each contract would also say that it is still the same buffer.
#[derive(Clone, Copy)]
pub struct Draft<'a, const WIDTH: usize> {
    pub code: &'a [u8],
    ghost numbered: { Numbered (length code.now) WIDTH },
}

impl<'a, const WIDTH: usize> Draft<'a, WIDTH> {
    // The number at a place.
    fn read_number(self, buffer: &[u8], at: usize) -> usize
        requires { at + WIDTH ≤ length buffer.now }
        ensures { Reads buffer.now WIDTH at result }
    {
        if WIDTH == 1 {
            return usize::from(buffer[at]);
        }
        usize::from(u16::from_be_bytes([buffer[at], buffer[at + 1]]))
    }

    // Puts a number at a place: none is over the code's length.
    fn write_number(self, buffer: &mut [u8], at: usize, v: usize)
        requires { (at + WIDTH ≤ length buffer.old) × (v ≤ length self.code.now) }
        ensures { buffer.new ≡ sets buffer.old at (number WIDTH v) }
    {
        if WIDTH == 1 {
            buffer[at] = v as u8;
        } else {
            let [high, low] = (v as u16).to_be_bytes();
            buffer[at] = high;
            buffer[at + 1] = low;
        }
    }

    // Where the count of state p is.
    fn count_place(self, p: usize) -> usize
        requires { p ≤ length self.code.now }
        ensures { result ≡ count_place (length self.entry.code.now) p }
    {
        let m = self.code.len();
        if WIDTH == 1 { m + 1 + p } else { m + 3 + 2 * p }
    }

    // Where target number i is.
    fn target_place(self, i: usize) -> usize
        requires { i ≤ length self.code.now }
        ensures { result ≡ target_place (length self.entry.code.now) i }
    {
        let m = self.code.len();
        if WIDTH == 1 {
            2 * m + 2 + i
        } else {
            3 * m + 5 + 2 * i
        }
    }

    // Where the stored targets of state p end, counted from the first target.
    fn target_end(self, buffer: &[u8], p: usize) -> usize
        requires { Fits self.code.now buffer.now × (p ≤ length self.code.now) }
        ensures { Reads buffer.now WIDTH (count_place (length self.entry.code.now) p) result }
    {
        self.read_number(buffer, self.count_place(p))
    }

    // Where they start: where those of the state below end.
    fn target_start(self, buffer: &[u8], p: usize) -> usize
        requires { Fits self.code.now buffer.now × (p ≤ length self.code.now) }
        ensures { StartRead buffer.now (length self.entry.code.now) WIDTH p result }
    {
        if p == 0 {
            0
        } else {
            self.target_end(buffer, p - 1)
        }
    }

    // One target for state r: stored, or kept back as the next state's longest border where it has r's forward label.
    fn put_target(self, buffer: &mut [u8], f: Filled, t: usize, r: usize) -> Filled
        requires { TargetReady self.code.now buffer.old r t f.stored }
        ensures { (result ≡ put_result self.entry.code.now r t f) × (buffer.new ≡ put_buffer self.entry.code.now r t f buffer.old) }
    {
        let code = self.code;
        if r < code.len() && code[r] == code[t - 1] {
            return Filled {
                stored: f.stored,
                border: t,
            };
        }
        self.write_number(buffer, self.target_place(f.stored), t);
        Filled {
            stored: f.stored + 1,
            border: f.border,
        }
    }

    // The targets of state r: that of its longest border, and that border's own targets.
    fn fill_state(self, buffer: &mut [u8], r: usize, below: Filled) -> Filled
        requires { StateReady self.code.now buffer.old r below }
        ensures { StateMade self.entry.code.now r result buffer.old buffer.new }
    {
        let border = below.border;
        let start = self.target_start(buffer, border);
        let end = self.target_end(buffer, border);
        let none = Filled {
            stored: below.stored,
            border: 0,
        };
        let mut f = self.put_target(buffer, none, border + 1, r);
        for i in start..end {
            let t = self.read_number(buffer, self.target_place(i));
            f = self.put_target(buffer, f, t, r);
        }
        f
    }

    // What is before the code: its length, on a wide sheet behind a 0 byte.
    fn fill_front(self, buffer: &mut [u8])
        requires { Fits self.code.now buffer.old }
        ensures { FrontMade (length self.entry.code.now) buffer.old buffer.new }
    {
        let m = self.code.len();
        if WIDTH == 1 {
            self.write_number(buffer, 0, m);
        } else {
            buffer[0] = 0;
            self.write_number(buffer, 1, m);
        }
    }

    // That and the code: byte by byte, since `copy_from_slice` calls `memmove`, which an archive for C would then need from outside.
    fn fill_code(self, buffer: &mut [u8])
        requires { Fits self.code.now buffer.old }
        ensures { CodeMade self.entry.code.now buffer.old buffer.new }
    {
        let start = code_start(self.code.len());
        self.fill_front(buffer);
        for (i, &byte) in self.code.iter().enumerate() {
            buffer[start + i] = byte;
        }
    }

    // The counts and targets of the states from 1 on; the number of targets.
    fn fill_states(self, buffer: &mut [u8]) -> usize
        requires { Fits self.code.now buffer.old × FilledTo self.code.now 1 buffer.old buffer.old }
        ensures { StatesMade self.entry.code.now result buffer.old buffer.new }
    {
        let mut f = Filled {
            stored: 0,
            border: 0,
        };
        for r in 1..=self.code.len() {
            f = self.fill_state(buffer, r, f);
            self.write_number(buffer, self.count_place(r), f.stored);
        }
        f.stored
    }

    // The whole sheet, into a buffer with room for it; the number of its bytes. It is always inlined: with a call between, codes of one byte took 1.3 times
    // as long to prepare.
    #[inline(always)]
    pub(crate) fn fill(self, buffer: &mut [u8]) -> usize
        requires { Fits self.code.now buffer.old }
        ensures { SheetMade self.entry.code.now result buffer.old buffer.new }
    {
        self.fill_code(buffer);
        self.write_number(buffer, self.count_place(0), 0);
        let targets = self.fill_states(buffer);
        self.target_place(targets)
    }

    // Whether a buffer begins with the sheet: it is compared with one filled afresh in a work area of ROOM bytes.
    pub(crate) fn begins<const ROOM: usize>(self, buffer: &[u8]) -> bool
        requires { (sheet_room (length self.code.now) ≤ ROOM) × (ROOM < 2 ^ 63) }
        ensures { Freshly buffer.now self.entry.code.now result }
    {
        let mut area = [0u8; ROOM];
        let n = self.fill(&mut area);
        same_front(buffer, &area, n)
    }
}
