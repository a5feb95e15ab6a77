// How many cells there are.
ghost use Rattle.std.specs.Prelude.{◌≡◌, true, ◌≤◌};
ghost use Rattle.rules.specs.Cells.{most_cells};
ghost use Rattle.layout.specs.Lengths.{cell_count, links_fit};

use crate::CELL_COUNT;

#[derive(Clone, Copy)]
pub struct CellCount {
    pub number: usize,
    pub ghost some: { 1 ≤ number },
    pub ghost most: { number ≤ most_cells },
}

// That of link memory which has the length that its fresh call got.
#[tactic(auto, using(crate::proofs::Fits::links_fit_law, crate::proofs::Fits::fixed_part))]
pub fn cell_count(links: &[u32]) -> CellCount
    requires { links_fit links.now ≡ true }
    ensures { result.number ≡ cell_count links.now }
{
    let number = links[CELL_COUNT] as usize;
    CellCount { number }
}
