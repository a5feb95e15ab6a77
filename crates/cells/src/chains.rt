// Cells one after another by their next words.
ghost use Rattle.std.specs.Prelude.{◌≡◌, ◌^◌, ◌≤◌, ◌<◌, length};
ghost use Rattle.layout.specs.Places.{link_words, next_word};
ghost use Rattle.cells.specs.Chains as spec;

use layout::{CELL_STRIDE, NEXT, below};

// Where a cell's next word stands.
pub fn next_at(c: usize) -> usize
    requires { next_word c < 2 ^ 64 }
    ensures { result ≡ next_word c }
{
    NEXT + CELL_STRIDE * c
}

// The cell after cell c.
pub fn next(links: &[u32], n: usize, c: usize) -> usize
    requires { (link_words n ≤ length links.now) × (c < n) }
    ensures { (result ≡ spec.next n links.now c) × (result < n) }
{
    below(links[next_at(c)], n)
}

// The cell after the k cells from c on.
#[tactic(auto, using(crate::proofs::Paths::walk_more))]
pub fn walk(links: &[u32], n: usize, c: usize, k: u32) -> usize
    requires { (link_words n ≤ length links.now) × (c < n) }
    ensures { (result ≡ spec.walk n links.now k c) × (result < n) }
{
    let mut at = c;
    for _ in 0..k {
        at = next(links, n, at);
    }
    at
}
