// The fresh call: it writes every word of link memory and every place of address memory.
#![tactic(auto)]

mod links; // the words of link memory

ghost use Rattle.std.specs.Prelude.{◌≡◌, List, ℕ, true, false, MatchOption, length};
ghost use Rattle.layout.specs.Places.{link_words};
ghost use Rattle.layout.specs.Answers.{answered};
ghost use Rattle.layout.specs.Lengths.{addresses_fit};
ghost use Rattle.fresh_call.specs.Calls.{cells_lent, lengths_fit, fresh_call};

use crate::links::start_links;
use addresses::forget_all;
use layout::answers::Done;
use layout::cell_count::CellCount;
use layout::lengths::places_mut;
use layout::numbers::{FEWEST_CELLS, MOST_CELLS};
use layout::{CELL_SIZE, CELL_STRIDE, FIXED_WORDS};
use rules::refusals::Refusal;

const FEWEST: usize = FEWEST_CELLS as usize;

const MOST: usize = MOST_CELLS as usize;

// The cells of cell memory, where both memories have the lengths for them.
#[tactic(auto, unfolding(crate::specs::Calls::lengths_fit, layout::specs::Lengths::addresses_fit))]
fn lent(cells: &[u8], links: &[u32]) -> Option<CellCount>
    ensures { MatchOption result
        ((addresses : List ℕ) → lengths_fit cells.now links.now addresses ≡ false)
        (λ n. (n.number ≡ cells_lent cells.now) × (length links.now ≡ link_words n.number)
        × ((addresses : List ℕ) → lengths_fit cells.now links.now addresses ≡ addresses_fit addresses)) }
{
    let number = cells.len() / CELL_SIZE;
    let fit = (FEWEST..=MOST).contains(&number)
        & (cells.len() == CELL_SIZE * number)
        & (links.len() == FIXED_WORDS + CELL_STRIDE * number);
    if fit {
        Some(CellCount { number })
    } else {
        None
    }
}

#[tactic(auto, unfolding(crate::specs::Calls::fresh_call, crate::specs::Calls::fresh_refusals, rules::specs::Lines::first))]
pub fn fresh(cells: &[u8], links: &mut [u32], addresses: &mut [u64]) -> Result<Done, Refusal>
    ensures { (answered result, (cells.now, links.new, addresses.new))
        ≡ fresh_call cells.now links.old addresses.old }
{
    let n = lent(cells, links).ok_or(Refusal::MemoryLength)?;
    let places = places_mut(addresses).ok_or(Refusal::MemoryLength)?;
    start_links(links, n);
    forget_all(places);
    Ok(Done { x: 0, y: 0 })
}
