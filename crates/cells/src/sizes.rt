// The cells of a frame by its length.
ghost use Rattle.std.specs.Prelude.{◌≡◌, ◌≤◌};
ghost use Rattle.rules.specs.Cells.{longest};
ghost use Rattle.rules.specs.Cells as rules;

use layout::{CELL_SIZE, STORED_HEADER};

// To round a length with its header up to cells.
const ROUND_UP: usize = STORED_HEADER + CELL_SIZE - 1;

// "The least whole number of cells holding n + 8 bytes."
pub fn cells_of(long: usize) -> usize
    requires { long ≤ longest }
    ensures { result ≡ rules.cells long }
{
    (long + ROUND_UP) / CELL_SIZE
}
