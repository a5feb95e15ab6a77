// A frame whose copy leaves a port, as a take meets it.
ghost use Rattle.std.specs.Prelude.{◌≡◌, ℕ, List, true, false, ◌-◌, ◌^◌, ◌≤◌, ◌<◌, length, MatchResult};
ghost use Rattle.rules.specs.Cells.{shortest, longest};
ghost use Rattle.layout.specs.Places.{fixed_words, link_words, cell_bytes};
ghost use Rattle.cells.specs.Free.{word_of};
ghost use Rattle.settings.specs.Records.{port_operation_at};
ghost use Rattle.departure.specs.Frames as spec;

use crate::leaving::left_of_word;
use cells::sizes::cells_of;
use cells::stored::StoredHeader;
use layout::cell_count::CellCount;
use layout::damage::Damaged;
use layout::ports::Port;
use layout::{PORT_OPERATION, PORT_STRIDE, SIZE_UNIT};
use settings::operation::{OperationWord, is_exempt, is_idle};

// Its first cell is c, and all that is met of it is in range.
#[derive(Clone, Copy)]
pub struct Departing<'a> {
    pub cells: &'a [u8],
    pub links: &'a [u32],
    pub n: CellCount,
    pub port: Port,
    pub c: u32,
    pub long: usize,
    // the word of the VLAN's operation, as it is stored, and that of the port's
    pub vlan: u32,
    pub own: u32,
    // the frame word when the copy has left
    pub left: u32,
    pub ghost lent: { (link_words n.number ≤ length links.now) × (cell_bytes n.number ≤ length cells.now) × (c < n.number) },
    pub ghost sends: { spec.can_send cells.now n.number port.number c links.now ≡ true },
    pub ghost header: { (long ≡ (spec.stored_at cells.now c).length) × (vlan ≡ (spec.stored_at cells.now c).operation) },
    pub ghost length: { (shortest ≤ long) × (long ≤ longest) },
    pub ghost words: { (own ≡ port_operation_at links.now port.number) × (left ≡ word_of links.now c - 2 ^ port.number) },
}

// The word of the departing port's operation.
pub fn operation_word(links: &[u32], port: Port) -> u32
    requires { fixed_words ≤ length links.now }
    ensures { result ≡ port_operation_at links.now port.number }
{
    links[PORT_OPERATION + PORT_STRIDE * port.index()]
}

// Is the stored header in range, and does it fit the frame's cells? `own` is the word of the departing port's
// operation, `word` the frame word.
#[inline(always)]
#[tactic(auto, using(crate::proofs::Headers::length_in_range), unfolding(crate::specs::Frames::header_fits))]
fn header_fits(h: StoredHeader, own: u32, word: u32) -> bool
    ensures { (port c : ℕ) (links : List ℕ) → own ≡ port_operation_at links port → word ≡ word_of links c
        → result ≡ spec.header_fits h port c links }
{
    // The size is no more than 52, so that no other bit of the word is set.
    h.in_range()
        && (word / SIZE_UNIT) as usize == cells_of(h.length as usize)
        && (is_exempt(h.operation) || OperationWord::try_from(own).is_ok())
}

impl<'a> Departing<'a> {
    // The header comes first: a size that is that of the length is in range.
    #[inline(always)]
    #[tactic(auto, unfolding(crate::specs::Frames::can_send, crate::specs::Leaving::word_left))]
    pub fn meet(
        cells: &'a [u8],
        links: &'a [u32],
        n: CellCount,
        port: Port,
        c: u32,
    ) -> Result<Departing<'a>, Damaged>
        requires { (link_words n.number ≤ length links.now) × (cell_bytes n.number ≤ length cells.now) × (c < n.number) }
        ensures { MatchResult result
            (λ copy. (copy.cells.now ≡ cells.now) × (copy.links.now ≡ links.now) × (copy.n.number ≡ n.number)
            × (copy.port.number ≡ port.number) × (copy.c ≡ c))
            (λ _. spec.can_send cells.now n.number port.number c links.now ≡ false) }
    {
        let header = StoredHeader::read(cells, n.number, c);
        let own = operation_word(links, port);
        let word = cells::free::word(links, n.number, c);
        if !header_fits(header, own, word) {
            return Err(Damaged);
        }
        let Some(left) = left_of_word(links, n.number, port, c, word) else {
            return Err(Damaged);
        };
        Ok(Departing {
            cells,
            links,
            n,
            port,
            c,
            long: header.length as usize,
            vlan: header.operation,
            own,
            left,
        })
    }

    // Is neither the VLAN's nor the departing port's an operation that acts? Then the frame leaves as it is.
    #[tactic(auto, using(crate::proofs::Plain::plain_none))]
    pub fn is_plain(self) -> bool
        ensures { result ≡ true
            → spec.leaves_plain (spec.stored_at self.entry.cells.now self.entry.c)
            (spec.operation_of_port self.entry.links.now self.entry.port.number) ≡ true }
    {
        is_idle(self.vlan) & is_idle(self.own)
    }
}
