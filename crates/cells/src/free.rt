// The free cells and the cells of frames: taking and giving back.
ghost use Rattle.std.specs.Prelude.{◌≡◌, true, ◌*◌, ◌≤◌, ◌<◌, length, set};
ghost use Rattle.rules.specs.Cells.{most_cells};
ghost use Rattle.layout.specs.Places.{link_words, frame_word, size_unit};
ghost use Rattle.cells.specs.Chains.{behind};
ghost use Rattle.cells.specs.Free as spec;

use crate::chains::{next_at, walk};
use layout::damage::Damaged;
use layout::{CELL_STRIDE, FIRST_FREE, FRAME, FRAME_END, FREE_COUNT, SIZE_UNIT};

// Is there room for a frame of k cells?
#[tactic(auto, unfolding(crate::specs::Free::room_for))]
pub fn can_take(links: &[u32], n: usize, k: usize) -> Result<bool, Damaged>
    requires { link_words n ≤ length links.now }
    ensures { result ≡ spec.room_for n k links.now }
{
    let free = links[FREE_COUNT] as usize;
    if n < free {
        return Err(Damaged);
    }
    if free < k {
        return Ok(false);
    }
    let first = links[FIRST_FREE] as usize;
    if first < n { Ok(true) } else { Err(Damaged) }
}

// The first k free cells become those of a frame that waits at ports. The next word of the last of them is `after`.
#[tactic(auto, using(crate::proofs::Moves::taking, std::proofs::lemmas::Grind::common_steps), unfolding(crate::specs::Free::taken))]
pub fn take_cells(links: &mut [u32], n: usize, k: usize, ports: u32, after: u32)
    requires n_in_bounds { (link_words n ≤ length links.old) × (k ≤ 52) × (ports < 32)
        × (spec.room_for n k links.old ≡ Ok true) }
    requires after_value { after ≡ behind n links.old k (spec.first_free links.old) }
    ensures { links.new ≡ spec.taken n k ports links.old }
{
    let count = k as u32;
    let free = links[FREE_COUNT];
    let first = links[FIRST_FREE];
    links[FREE_COUNT] = free - count;
    links[FIRST_FREE] = after;
    links[frame_at(first)] = ports + SIZE_UNIT * count;
}

// Where the frame word stands of the frame whose first cell is c.
fn frame_at(c: u32) -> usize
    ensures { result ≡ frame_word c }
{
    FRAME + CELL_STRIDE * (c as usize)
}

// The frame word.
pub fn word(links: &[u32], n: usize, c: u32) -> u32
    requires { (link_words n ≤ length links.now) × (c < n) }
    ensures { result ≡ spec.word_of links.now c }
{
    links[frame_at(c)]
}

// Is it in range: a size of 1 to 52 cells?
#[tactic(auto, unfolding(crate::specs::Free::is_frame))]
pub fn is_frame(links: &[u32], n: usize, c: u32) -> bool
    requires { (link_words n ≤ length links.now) × (c < n) }
    ensures { result ≡ spec.is_frame c links.now }
{
    (SIZE_UNIT..FRAME_END).contains(&word(links, n, c))
}

// Do the cells of that frame, `size` in all, fit beside the free ones?
#[tactic(auto, unfolding(crate::specs::Free::can_give_back))]
pub fn can_give_back(links: &[u32], n: usize, c: u32, size: u32) -> bool
    requires { (link_words n ≤ length links.now) × (c < n) × (size ≡ spec.size_of links.now c) }
    ensures { result ≡ spec.can_give_back n c links.now }
{
    let free = links[FREE_COUNT] as usize;
    let first = links[FIRST_FREE] as usize;
    (free + (size as usize) <= n) & (first < n)
}

// The last cell of that frame.
#[tactic(auto, using(crate::proofs::Moves::frame))]
pub fn last(links: &[u32], n: usize, c: u32) -> usize
    requires { (link_words n ≤ length links.now) × (c < n) × (spec.is_frame c links.now ≡ true) }
    ensures { (result ≡ spec.last_cell n links.now c) × (result < n) }
{
    let size = word(links, n, c) / SIZE_UNIT;
    walk(links, n, c as usize, size - 1)
}

// The cells of that frame, whose last is `last`, become the first free ones. `left` is its word without ports.
#[tactic(auto, using(crate::proofs::Moves::giving, crate::proofs::Moves::last_in), unfolding(crate::specs::Free::given_back))]
pub fn give_back(links: &mut [u32], n: usize, c: u32, last: usize, left: u32)
    requires n_in_bounds { (link_words n ≤ length links.old) × (n ≤ most_cells) × (c < n)
        × (spec.can_give_back n c links.old ≡ true) }
    requires last_value { (last ≡ spec.last_cell n links.old c) × (left ≡ size_unit * spec.size_of links.old c) }
    ensures { links.new ≡ spec.given_back n c links.old }
{
    let free = links[FREE_COUNT];
    let first = links[FIRST_FREE];
    links[next_at(last)] = first;
    links[FREE_COUNT] = free + left / SIZE_UNIT;
    links[FIRST_FREE] = c;
    links[frame_at(c)] = left;
}

// The frame word becomes `word`.
pub fn set_word(links: &mut [u32], n: usize, c: u32, word: u32)
    requires { (link_words n ≤ length links.old) × (c < n) }
    ensures { links.new ≡ set links.old (frame_word c) word }
{
    links[frame_at(c)] = word;
}
