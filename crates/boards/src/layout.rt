// The board in bytes: the codes and the links of their starts. Each part is written behind the one before it.
ghost use Rattle.std.specs.Prelude.{◌+◌, ◌*◌, ◌≤◌, length};
ghost use Rattle.sheets.specs.Sheet.{number, numbers};
ghost use Rattle.boards.specs.Tables.{codes_of};
ghost use Rattle.boards.specs.Written.{Spliced, rows_in, OnLengths, OnBoard, BoardMade};

use crate::given::Codes;
use crate::links::Links;

// Puts bytes, one by one: `copy_from_slice` calls `memmove`, which an archive for C would then need from outside.
pub(crate) fn put_bytes(bytes: &[u8], area: &mut [u8], at: usize)
    requires { at + length bytes.now ≤ length area.old }
    ensures { Spliced at bytes.now area.old area.new }
{
    for (i, &byte) in bytes.iter().enumerate() {
        area[at + i] = byte;
    }
}

// Puts a number in two bytes.
fn put_pair(v: u16, area: &mut [u8], at: usize)
    requires { at + 2 ≤ length area.old }
    ensures { Spliced at (number 2 v) area.old area.new }
{
    put_bytes(&v.to_be_bytes(), area, at);
}

// Puts lengths in two bytes each.
fn put_lengths(lengths: &[u32], area: &mut [u8], at: usize)
    requires { OnLengths lengths.now area.old at }
    ensures { Spliced at (numbers 2 lengths.now) area.old area.new }
{
    for (i, &length) in lengths.iter().enumerate() {
        put_pair(length as u16, area, at + 2 * i);
    }
}

// Puts the failure links, in two bytes each, and nearest codes of the states below count.
fn put_rows(links: &Links, count: usize, area: &mut [u8], at: usize)
    requires { (count ≤ 2001) × (at + 3 * count ≤ length area.old) }
    ensures { Spliced at (rows_in links.now.links links.now.nearest count) area.old area.new }
{
    for g in 0..count {
        put_pair(links.links[2 * g], area, at + 3 * g);
        area[at + 3 * g + 2] = links.nearest[g];
    }
}

// The whole board; the number of its bytes.
pub(crate) fn write_board(codes: Codes, links: &Links, area: &mut [u8]) -> usize
    requires { OnBoard (codes_of codes) links.now area.old }
    ensures { BoardMade (codes_of codes.entry) result area.old area.new }
{
    let k = codes.lengths.len();
    let n = codes.bytes.len();
    let end = 1 + 2 * k + n;
    area[0] = k as u8;
    put_lengths(codes.lengths, area, 1);
    put_bytes(codes.bytes, area, 1 + 2 * k);
    put_bytes(&links.shorter[..k], area, end);
    put_rows(links, n + 1, area, end + k);
    end + k + 3 * (n + 1)
}
