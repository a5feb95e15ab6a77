// "The search takes the bucket's four places, then the sixteen spares; the first match ends it."
ghost use Rattle.std.specs.Prelude.{◌≡◌, ◌<◌};
ghost use Rattle.rules.specs.Numbers.{place_count};
ghost use Rattle.addresses.specs.Search.{look_up};
ghost use Rattle.addresses.specs.Turns.{place_at, empty_so_far, answer_at, told_by, match_place};

use crate::LookUp;
use crate::keys::Key;
use crate::numbers::Number;
use layout::damage::Damaged;
use layout::numbers::PLACES;

// Places of a bucket, spares, and the places that a search meets.
const WAYS: usize = 4;

const SPARES: usize = 16;

const TURNS: usize = WAYS + SPARES;

// The spares are the last places, and are met behind the bucket's.
const BEFORE_SPARES: usize = PLACES - SPARES - WAYS;

// The place that a search meets in a turn from 0 to 19: the bucket's four, then the spares.
#[tactic(auto, unfolding(crate::specs::Turns::place_at))]
fn place_at(bucket: usize, turn: usize) -> usize
    requires { (bucket < 1024) × (turn < 20) }
    ensures { (result ≡ place_at bucket turn) × (result < place_count) }
{
    if turn < WAYS {
        bucket * WAYS + turn
    } else {
        BEFORE_SPARES + turn
    }
}

// The first empty place so far.
#[tactic(auto, unfolding(crate::specs::Turns::empty_so_far))]
fn first_empty(before: Option<usize>, number: Number, place: usize) -> Option<usize>
    ensures { result ≡ empty_so_far before number.0 place }
{
    if number.is_used() {
        before
    } else {
        before.or(Some(place))
    }
}

// Of a match: its number may have a port above 4, or bits that are no part of it.
#[tactic(auto, unfolding(crate::specs::Turns::answer_at))]
fn answer_at(number: Number, place: usize) -> Result<LookUp, Damaged>
    ensures { result ≡ answer_at number.0 place }
{
    if number.parts_in_range() {
        let port = number.port();
        Ok(LookUp::Found { port, place })
    } else {
        Err(Damaged)
    }
}

// A match is told with its number as it stands: whether that is in range is asked behind it. So a look-up goes from here to
// its caller in two words, and each call that changes a place gets on without a slot that has to be cleared.
#[tactic(auto, using(crate::proofs::Search::look_up_seek, crate::proofs::Search::seek_end, crate::proofs::Search::seek_met, crate::proofs::Search::seek_next), unfolding(crate::specs::Search::answered, crate::specs::Turns::told_by))]
fn search_places(addresses: &[u64; PLACES], key: Key) -> LookUp
    ensures told { told_by addresses.now result ≡ look_up addresses.now key.number }
    ensures inside { match_place result < place_count }
{
    let bucket = key.bucket();
    let mut empty = None;
    let mut turn = 0;
    let found = 'search: loop {
        if turn == TURNS {
            return empty.map_or(LookUp::Full, LookUp::Vacant);
        }
        let place = place_at(bucket, turn);
        let number = Number(addresses[place]);
        if number.is_entry(key) {
            break 'search place;
        }
        empty = first_empty(empty, number, place);
        turn += 1;
    };
    LookUp::Found {
        port: Number(addresses[found]).port(),
        place: found,
    }
}

#[inline(always)]
#[tactic(auto, unfolding(crate::specs::Turns::told_by))]
pub fn whole_search(addresses: &[u64; PLACES], key: Key) -> Result<LookUp, Damaged>
    ensures { result ≡ look_up addresses.now key.number }
{
    match search_places(addresses, key) {
        LookUp::Found { place, .. } => answer_at(Number(addresses[place]), place),
        unmatched => Ok(unmatched),
    }
}

// The same answer, for frames: most matches stand in the bucket, so only its four places come before the whole search.
#[inline(always)]
#[tactic(auto, using(crate::proofs::Search::ways_met, crate::proofs::Search::ways_next, crate::proofs::Search::look_up_way))]
pub fn look_up(addresses: &[u64; PLACES], key: Key) -> Result<LookUp, Damaged>
    ensures { result ≡ look_up addresses.now key.number }
{
    let from = key.bucket() * WAYS;
    let found = 'ways: {
        for place in from..from + WAYS {
            if Number(addresses[place]).is_entry(key) {
                break 'ways place;
            }
        }
        return whole_search(addresses, key);
    };
    answer_at(Number(addresses[found]), found)
}
