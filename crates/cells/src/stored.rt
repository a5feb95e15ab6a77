// What is stored with a frame: its 8 bytes, and their ranges.
ghost use Rattle.std.specs.Prelude.{◌≡◌, ◌+◌, ◌≤◌, ◌<◌, length};
ghost use Rattle.std.proofs.lemmas.List.Edits.{sets};
ghost use Rattle.layout.specs.Places.{cell_bytes};
ghost use Rattle.cells.specs.Bytes.{header_in};
ghost use Rattle.cells.specs.Stored.{stored_bytes, stored_of, stored_in_range};

use layout::CELL_SIZE;
use layout::numbers::{LONGEST, SHORTEST};
use settings::operation::is_stored_word;

// Length, the arrival port's default header as its word has it (from DEI on), and the word of the VLAN's operation.
// The first word past the range of operations stands for a frame on which none acts.
#[derive(Clone, Copy)]
pub struct StoredHeader {
    pub length: u16,
    pub default: u16,
    pub operation: u32,
}

// VID 1 to 4,094 stands on top of the default header: 16, and 4095 * 16.
const DEFAULT_START: u16 = 16;

const DEFAULT_END: u16 = 65520;

const SHORTEST_LENGTH: u16 = SHORTEST as u16;

const LONGEST_LENGTH: u16 = LONGEST as u16;

impl StoredHeader {
    // Low bytes first.
    #[tactic(auto, using(crate::proofs::Headers::header_run))]
    pub fn write(self, cells: &mut [u8], at: usize)
        requires { at + 8 ≤ length cells.old }
        ensures { cells.new ≡ sets cells.old at (stored_bytes self) }
    {
        cells[at..at + 2].copy_from_slice(&self.length.to_le_bytes());
        cells[at + 2..at + 4].copy_from_slice(&self.default.to_le_bytes());
        cells[at + 4..at + 8].copy_from_slice(&self.operation.to_le_bytes());
    }

    // That of the frame whose first cell is c.
    #[tactic(auto, using(crate::proofs::Headers::byte_in), unfolding(crate::specs::Stored::stored_of))]
    pub fn read(cells: &[u8], n: usize, c: u32) -> StoredHeader
        requires { (cell_bytes n ≤ length cells.now) × (c < n) }
        ensures { result ≡ stored_of (header_in cells.now c) }
    {
        let a = CELL_SIZE * (c as usize);
        StoredHeader {
            length: u16::from_le_bytes([cells[a], cells[a + 1]]),
            default: u16::from_le_bytes([cells[a + 2], cells[a + 3]]),
            operation: u32::from_le_bytes([cells[a + 4], cells[a + 5], cells[a + 6], cells[a + 7]]),
        }
    }

    #[tactic(auto, unfolding(crate::specs::Stored::stored_in_range))]
    pub fn in_range(self) -> bool
        ensures { result ≡ stored_in_range self }
    {
        (SHORTEST_LENGTH..=LONGEST_LENGTH).contains(&self.length)
            & (DEFAULT_START..DEFAULT_END).contains(&self.default)
            & is_stored_word(self.operation)
    }
}
