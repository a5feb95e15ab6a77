// The layout paper, "Link memory": where each field stands, as constants. A record's or a table's place i is its first
// word and i of its strides.
#![tactic(auto)]

ghost use Rattle.std.specs.Prelude.{◌≡◌, ◌≤◌, ◌<◌};
ghost use Rattle.layout.specs.Cells.{clamped};

pub mod numbers; // the numbers of docs/RULES.md
pub mod ports; // a port, a queue
pub mod cell_count; // how many cells there are
pub mod answers; // what a call answers
pub mod damage; // a word out of range
pub mod lengths; // the lengths of lent memory
pub mod counter; // a counter's word
pub mod bits; // one bit of a word

pub const FIXED_WORDS: usize = 1024;

pub const CELL_COUNT: usize = 0;

pub const MAP: usize = 1;

pub const SWITCHES: usize = 2;

pub const FREE_COUNT: usize = 3;

pub const FIRST_FREE: usize = 4;

pub const VLAN_COUNT: usize = 5;

pub const STATES: usize = 8;

pub const VLAN: usize = 32;

pub const VLAN_OPERATION: usize = 33;

pub const VLAN_STRIDE: usize = 2;

// A port's record: its counters, its own word and its operation's, the word of its queues that wait, each queue's
// oldest and youngest frame.
pub const COUNTER: usize = 384;

pub const PORT: usize = 416;

pub const PORT_OPERATION: usize = 417;

pub const WAITING: usize = 418;

pub const OLDEST: usize = 424;

pub const YOUNGEST: usize = 425;

pub const QUEUE_STRIDE: usize = 2;

pub const PORT_STRIDE: usize = 128;

pub const NEXT: usize = 1024;

pub const FRAME: usize = 1025;

// A frame word is its ports and its size in cells by this.
pub const SIZE_UNIT: u32 = 32;

// One in range is below this: a frame has 52 cells at most.
pub const FRAME_END: u32 = 53 * SIZE_UNIT;

pub const BEHIND: usize = 1026;

pub const CELL_STRIDE: usize = 20;

// "Cell memory": a cell's bytes, those of the stored header before a frame, and those of the frame in its first cell.
pub const CELL_SIZE: usize = 80;

pub const STORED_HEADER: usize = 8;

pub const FIRST_PART: usize = CELL_SIZE - STORED_HEADER;

// A cell number from n on stands for 0: a word that names the cell after another is read so, whatever it holds.
#[tactic(auto, unfolding(crate::specs::Cells::clamped))]
pub fn below(cell: u32, n: usize) -> usize
    requires { 1 ≤ n }
    ensures { (result ≡ clamped n cell) × (result < n) }
{
    let i = cell as usize;
    if i < n { i } else { 0 }
}
