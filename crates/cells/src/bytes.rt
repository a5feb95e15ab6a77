// A frame's bytes over the cells of a chain: stored, and loaded straight into a buffer. Each cell but the last is full.
ghost use Rattle.std.specs.Prelude.{◌≡◌, ◌++◌, ◌+◌, ◌-◌, ◌≤◌, ◌<◌, length, take, drop};
ghost use Rattle.std.proofs.lemmas.List.Edits.{sets};
ghost use Rattle.rules.specs.Cells.{first_part};
ghost use Rattle.rules.specs.Cells as rules;
ghost use Rattle.layout.specs.Places.{link_words, cell_bytes};
ghost use Rattle.cells.specs.Chains.{follow, walk};
ghost use Rattle.cells.specs.Bytes.{store_from, load_cells, load_from, cells_for};
ghost use Rattle.cells.specs.Stored.{stored_bytes};

use crate::chains::{next, next_at};
use crate::stored::StoredHeader;
use layout::{CELL_SIZE, FIRST_PART, STORED_HEADER, below};

// At least one byte into the cells from c on. Answers the next word of the last of them.
#[tactic(auto, using(crate::proofs::Turns::store_goes_on, crate::proofs::Turns::store_ends))]
fn store_rest(cells: &mut [u8], links: &[u32], n: usize, c: usize, bytes: &[u8]) -> u32
    requires { (link_words n ≤ length links.now) × (cell_bytes n ≤ length cells.old) × (c < n)
        × (0 < length bytes.now) }
    ensures { (result, cells.new)
        ≡ store_from n links.now (cells_for (length bytes.now)) c bytes.now cells.old }
{
    let mut at = c;
    let mut rest = bytes;
    while CELL_SIZE < rest.len() {
        slices::copy_block::<CELL_SIZE>(cells, CELL_SIZE * at, rest, 0);
        at = next(links, n, at);
        let (_, more) = rest.split_at(CELL_SIZE);
        rest = more;
    }
    slices::copy(cells, CELL_SIZE * at, rest);
    links[next_at(at)]
}

// A frame, its stored header before it, into the cells from first on. Answers the next word of the last of them.
#[inline(always)]
#[tactic(auto, using(crate::proofs::Turns::store_short, crate::proofs::Turns::store_long, crate::proofs::Headers::stored_length))]
pub fn store(
    cells: &mut [u8],
    links: &[u32],
    n: usize,
    first: u32,
    header: StoredHeader,
    frame: &[u8],
) -> u32
    requires { (link_words n ≤ length links.now) × (cell_bytes n ≤ length cells.old) × (first < n) }
    ensures { (result, cells.new)
        ≡ store_from n links.now (rules.cells (length frame.now)) first
        (stored_bytes header ++ frame.now) cells.old }
{
    let i = first as usize;
    let a = CELL_SIZE * i;
    header.write(cells, a);
    let after = links[next_at(i)];
    if frame.len() <= FIRST_PART {
        slices::copy(cells, a + STORED_HEADER, frame);
        return after;
    }
    slices::copy_block::<FIRST_PART>(cells, a + STORED_HEADER, frame, 0);
    let (_, rest) = frame.split_at(FIRST_PART);
    store_rest(cells, links, n, below(after, n), rest)
}

// The bytes of the cells from c on, as many as out takes, at least one. Answers the last of these cells.
#[inline(always)]
#[tactic(auto, using(crate::proofs::Turns::walk_goes_on, crate::proofs::Turns::load_starts, crate::proofs::Turns::load_goes_on, crate::proofs::Turns::load_ends))]
fn load_rest(cells: &[u8], links: &[u32], n: usize, c: usize, out: &mut [u8]) -> usize
    requires { (link_words n ≤ length links.now) × (cell_bytes n ≤ length cells.now) × (c < n)
        × (0 < length out.old) }
    ensures value { (result ≡ walk n links.now (cells_for (length out.old) - 1) c) × (result < n) }
    ensures out_after { out.new
        ≡ take (length out.old) (load_cells cells.now (follow n links.now (cells_for (length out.old)) c)) }
{
    let mut cell = c;
    let mut done = 0;
    while done + CELL_SIZE < out.len() {
        slices::copy_block::<CELL_SIZE>(out, done, cells, CELL_SIZE * cell);
        cell = next(links, n, cell);
        done += CELL_SIZE;
    }
    let a = CELL_SIZE * cell;
    let e = a + (out.len() - done);
    slices::copy(out, done, &cells[a..e]);
    cell
}

// A frame of long bytes stands in the cells from first on: what follows its first `from` bytes goes into out, from
// place at on. Answers its last cell. Where `from` is 0, the compiler is to know it.
#[tactic(auto, using(crate::proofs::Turns::load_short, crate::proofs::Turns::load_long))]
#[inline(always)]
pub fn load(
    cells: &[u8],
    links: &[u32],
    n: usize,
    first: u32,
    from: usize,
    long: usize,
    out: &mut [u8],
    at: usize,
) -> usize
    requires n_in_bounds { (link_words n ≤ length links.now) × (cell_bytes n ≤ length cells.now) × (first < n) }
    requires from_le_first_part { (from ≤ first_part) × (from ≤ long) × (at + (long - from) ≤ length out.old) }
    ensures value { (result ≡ walk n links.now (rules.cells long - 1) first) × (result < n) }
    ensures out_after { out.new
        ≡ load_from from out.old cells.now at long
        (follow n links.now (rules.cells long) first) }
{
    let i = first as usize;
    let a = CELL_SIZE * i + STORED_HEADER + from;
    if long <= FIRST_PART {
        let e = a + (long - from);
        slices::copy(out, at, &cells[a..e]);
        return i;
    }
    let m = FIRST_PART - from;
    let e = a + m;
    slices::copy(out, at, &cells[a..e]);
    let rest = &mut out[at + m..at + (long - from)];
    load_rest(cells, links, n, next(links, n, i), rest)
}

// A frame of long bytes stands in the cells from first on: it goes to the front of out. Answers its last cell.
#[inline(always)]
pub fn load_whole(
    cells: &[u8],
    links: &[u32],
    n: usize,
    first: u32,
    long: usize,
    out: &mut [u8],
) -> usize
    requires n_in_bounds { (link_words n ≤ length links.now) × (cell_bytes n ≤ length cells.now) × (first < n) }
    requires long_in_bounds { long ≤ length out.old }
    ensures value { (result ≡ walk n links.now (rules.cells long - 1) first) × (result < n) }
    ensures out_after { out.new
        ≡ load_from 0 out.old cells.now 0 long
        (follow n links.now (rules.cells long) first) }
{
    load(cells, links, n, first, 0, long, out, 0)
}
