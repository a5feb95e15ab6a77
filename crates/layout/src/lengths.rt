// The lengths of lent memory.
ghost use Rattle.std.specs.Prelude.{◌≡◌, true, false, MatchOption};
ghost use Rattle.std.specs.Borrow.{sem};
ghost use Rattle.layout.specs.Lengths.{is_cell_count, link_words_for, links_fit, cells_fit, addresses_fit};
ghost use Rattle.layout.specs.Lending.{LendsPlaces};

use crate::numbers::{FEWEST_CELLS, MOST_CELLS, PLACES};
use crate::{CELL_SIZE, CELL_STRIDE, FIXED_WORDS};

#[tactic(auto, unfolding(crate::specs::Lengths::is_cell_count))]
pub fn is_cell_count(n: u32) -> bool
    ensures { result ≡ is_cell_count n }
{
    (FEWEST_CELLS..=MOST_CELLS).contains(&n)
}

// The words of link memory to lend for a cell count; 0: no such count.
#[tactic(auto, unfolding(crate::specs::Lengths::link_words_for))]
pub fn link_words(n: u32) -> u64
    ensures { result ≡ link_words_for n }
{
    if is_cell_count(n) {
        FIXED_WORDS as u64 + CELL_STRIDE as u64 * u64::from(n)
    } else {
        0
    }
}

// Has link memory the length that its fresh call got?
#[tactic(auto, unfolding(crate::specs::Lengths::links_fit))]
pub fn links_fit(links: &[u32]) -> bool
    ensures { result ≡ links_fit links.now }
{
    match links {
        [n, ..] => is_cell_count(*n) && links.len() == FIXED_WORDS + CELL_STRIDE * (*n as usize),
        [] => false,
    }
}

// Has cell memory the length of link memory's cell count? It has four bytes for each of the words of the cells'
// records.
#[tactic(auto, using(crate::proofs::Fits::links_fit_law, crate::proofs::Fits::fixed_part), unfolding(crate::specs::Lengths::cells_fit))]
pub fn cells_fit(cells: &[u8], links: &[u32]) -> bool
    requires { links_fit links.now ≡ true }
    ensures { result ≡ cells_fit cells.now links.now }
{
    cells.len() == 4 * (links.len() - FIXED_WORDS)
}

// The places of address memory, where it has their length: what is written to them is what it holds then.
#[tactic(auto, unfolding(crate::specs::Lengths::addresses_fit))]
pub fn places_mut(addresses: &mut [u64]) -> Option<&mut [u64; PLACES]>
    ensures* writes_back { sem 𝓛 (LendsPlaces addresses.entry result) }
    ensures value { MatchOption result (addresses_fit addresses.old ≡ false)
        (λ places. (addresses_fit addresses.old ≡ true) × (places.now ≡ addresses.old)) }
{
    addresses.as_mut_array::<PLACES>()
}
