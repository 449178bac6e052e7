// A page: the forms that a program prints, written one behind another into a buffer of its own.
ghost use Rattle.std.specs.Prelude.{◌≡◌, List, [], ◌++◌, ℕ, ◌+◌, ◌*◌, ◌≤◌, length, take};
ghost use Rattle.forms.specs.Text.{decimal, place_forms, end_form, refused_form, Put, PutWithin};

use crate::{put, put_end, put_number, put_places, put_refused};
use std::marker::Model;

// The bytes written so far are the first of the buffer. Those that have no room are left out.
#[derive(Drop)]
pub struct Page<const ROOM: usize> {
    buffer: [u8; ROOM],
    used: usize,
}

impl<const ROOM: usize> Model for Page<ROOM> {
    ghost Value = { List ℕ };

    ghost view = { λ p. take p.used p.buffer };

    ghost invariant = { λ p. p.used ≤ ROOM };
}

impl<const ROOM: usize> Page<ROOM> {
    // An empty page.
    pub fn new() -> Self
        ensures { result ≡ [] }
    {
        Page {
            buffer: [0; ROOM],
            used: 0,
        }
    }

    // Empties the page.
    pub fn clear(&mut self)
        ensures { self.new ≡ [] }
    {
        self.used = 0;
    }

    // What stands on the page.
    pub fn bytes(&self) -> &[u8]
        ensures { result.now ≡ self.now }
    {
        &self.buffer[..self.used]
    }

    // How many more bytes have room.
    pub fn left(&self) -> usize
        ensures { result + length self.now ≡ ROOM }
    {
        ROOM - self.used
    }

    // Writes bytes.
    pub fn put(&mut self, bytes: &[u8])
        ensures { Put bytes.now ROOM self.old self.new }
    {
        self.used = put(&mut self.buffer, self.used, bytes);
    }

    // Writes bytes, and a number's decimal digits behind them.
    pub fn put_number(&mut self, bytes: &[u8], n: u64)
        ensures { Put (bytes.now ++ decimal n) ROOM self.old self.new }
    {
        self.used = put_number(&mut self.buffer, self.used, bytes, n);
    }

    // Writes the forms of places, each of 16 bytes at most.
    pub fn put_places(&mut self, places: &[u32])
        ensures { PutWithin (16 * length places.now) (place_forms places.now) ROOM self.old self.new }
    {
        self.used = put_places(&mut self.buffer, self.used, places);
    }

    // Writes the form of a search's end, of 75 bytes at most: bytes, places and comparisons.
    pub fn put_end(&mut self, bytes: u32, hits: u32, compares: u64)
        ensures { PutWithin 75 (end_form bytes hits compares) ROOM self.old self.new }
    {
        self.used = put_end(&mut self.buffer, self.used, bytes, hits, compares);
    }

    // Writes the form of a refusal, of 21 bytes at most.
    pub fn put_refused(&mut self, number: u32)
        ensures { PutWithin 21 (refused_form number) ROOM self.old self.new }
    {
        self.used = put_refused(&mut self.buffer, self.used, number);
    }
}
