// Feeding: one pass over a piece of text, from the watch answered before to the next one, and the hits in two lists.
ghost use Rattle.std.specs.Prelude.{◌≡◌, Ok, length};
ghost use Rattle.runs.specs.Answers.{answer_of};
ghost use Rattle.boards.specs.Tables.{codes_of};
ghost use Rattle.boards.specs.Entry.{lent, FeedSays};
ghost use Rattle.boards.specs.Inside.{OnHits, WritesHits, OnAdvance, Advances, Boarded, Ready, Took, OnFit, ToldFit};
ghost use Rattle.boards.specs.Naming.{OnNamed};

use crate::fronts::Fronts;
use crate::given::Codes;
use crate::layout::write_board;
use crate::links::Links;
use crate::named::Named;
use crate::tree::Tree;
use crate::{Watch, build};
use runs::{Ending, Feeding, Refusal};
use sheets::same_front;

// The hits of code number o, from 1, and of the shorter codes that it ends with, after so many bytes, written from spot k on; the spot behind them. The two
// lists stay apart, as a C caller lends them, and 0 ends the chain of codes, as it stands in the board.
fn write_hits(
    lengths: &[u32],
    shorter: &[u8],
    o: usize,
    taken: u32,
    places: &mut [u32],
    numbers: &mut [u32],
    k: usize,
) -> usize
    requires { OnHits lengths.now shorter.now o taken k (length places.old) (length numbers.old) }
    ensures { WritesHits lengths.now shorter.now o taken k result places.old places.new numbers.old
        numbers.new }
{
    let mut at = k;
    let mut number = o;
    while number != 0 {
        let j = number - 1;
        places[at] = taken - lengths[j];
        numbers[at] = number as u32;
        at += 1;
        number = usize::from(shorter[j]);
    }
    at
}

// Where the next bytes lead: the state, and the index behind them.
#[derive(Clone, Copy)]
struct Stride {
    state: usize,
    at: usize,
}

// The next byte; from state 0 first those at which no code begins, and where one does, its first bytes at once.
fn advance(tree: &Tree, links: &Links, fronts: &Fronts, g: usize, piece: &[u8], i: usize) -> Stride
    requires { OnAdvance tree.now links.now.links fronts.now g piece.now i }
    ensures { Advances tree.now links.now.links fronts.now g piece.now i result.state result.at }
{
    let mut p = i;
    if g == 0 {
        p = fronts.pass(piece, i);
    }
    if g == 0 && p + 3 < piece.len() {
        return Stride {
            state: fronts.enter(piece, p),
            at: p + fronts.depth,
        };
    }
    Stride {
        state: links.step(tree, g, piece[p]),
        at: p + 1,
    }
}

// The bytes of a piece, until it ends or fewer spots are free in a list than there are codes. A turn takes as many bytes as `advance` says, so no range counts
// them.
fn take_bytes(
    codes: Codes,
    tree: &Tree,
    links: &Links,
    watch: Watch,
    piece: &[u8],
    places: &mut [u32],
    numbers: &mut [u32],
) -> Feeding<Watch, u64>
    requires { Boarded (codes_of codes) tree.now links.now × Ready (codes_of codes) watch (length piece.now) }
    ensures { Took (codes_of codes.entry) watch (lent piece.now places.old numbers.old) (answer_of watch (Ok result))
        (lent piece.now places.new numbers.new) }
{
    let mut fronts = Fronts::new();
    fronts.put_codes(codes);
    let count = codes.lengths.len();
    let room = places.len().min(numbers.len());
    let mut g = watch.state as usize;
    let mut i = 0;
    let mut k = 0;
    while i < piece.len() && k + count <= room {
        let s = advance(tree, links, &fronts, g, piece, i);
        g = s.state;
        i = s.at;
        let taken = watch.taken + (i as u32);
        k = write_hits(
            codes.lengths,
            &links.shorter,
            usize::from(links.nearest[g]),
            taken,
            places,
            numbers,
            k,
        );
    }
    let ending = if i < piece.len() {
        Ending::ListFull
    } else {
        Ending::PieceDone
    };
    let written = k as u64;
    Feeding {
        watch: Watch {
            state: g as u32,
            taken: watch.taken + (i as u32),
            hits: watch.hits + written,
        },
        taken: i as u32,
        written,
        ending,
    }
}

// Whether a watch is fit for the board of n bytes of codes that has these links.
fn is_fit(links: &Links, n: usize, watch: Watch) -> bool
    requires { OnFit links.now.links n }
    ensures { ToldFit links.now.links n watch result }
{
    let state = watch.state as usize;
    if n < state {
        return false;
    }
    let depth = u32::from(links.links[2 * state + 1]);
    if state != 0 && depth == 0 {
        return false;
    }
    depth <= watch.taken && watch.hits <= 64 * u64::from(watch.taken)
}

// Feeding with the codes that the buffer names, which a board can have: their board is built afresh and compared. What `feed` was lent apart goes on so.
fn feed_codes(
    board: &[u8],
    codes: Codes,
    watch: Watch,
    piece: &[u8],
    places: &mut [u32],
    numbers: &mut [u32],
) -> Result<Feeding<Watch, u64>, Refusal>
    requires { OnNamed board.now codes }
    ensures { FeedSays board.now watch (lent piece.now places.old numbers.old) (answer_of watch result)
        (lent piece.now places.new numbers.new) }
{
    let mut tree = Tree::new();
    let mut links = Links::new();
    if build(codes, &mut tree, &mut links).is_err() {
        return Err(Refusal::NotPrepared);
    }
    let mut area = [0; 8196];
    let size = write_board(codes, &links, &mut area);
    if !same_front(board, &area, size) {
        return Err(Refusal::NotPrepared);
    }
    if !is_fit(&links, codes.bytes.len(), watch) {
        return Err(Refusal::UnfitWatch);
    }
    if places.len().min(numbers.len()) < codes.lengths.len() {
        return Err(Refusal::ShortList);
    }
    if ((Watch::LONGEST_TEXT - watch.taken) as usize) < piece.len() {
        return Err(Refusal::LongText);
    }
    Ok(take_bytes(codes, &tree, &links, watch, piece, places, numbers))
}

// Feeds a piece of text: with a board, whatever stands behind it, and the watch answered before. Each hit's place (the offset of the code's first byte, counted
// from the opening) and, at the same spot of the second list, its code's number are written to the lists' starts, and the rest of the lists stays. A refusal
// changes nothing.
pub fn feed(
    board: &[u8],
    watch: Watch,
    piece: &[u8],
    places: &mut [u32],
    numbers: &mut [u32],
) -> Result<Feeding<Watch, u64>, Refusal>
    ensures { FeedSays board.now watch (lent piece.now places.old numbers.old) (answer_of watch result)
        (lent piece.now places.new numbers.new) }
{
    let Some(named) = Named::read(board) else {
        return Err(Refusal::NotPrepared);
    };
    feed_codes(board, named.codes(), watch, piece, places, numbers)
}
