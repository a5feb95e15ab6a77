// Address memory: 4,112 numbers, searched by key. What a change writes is found by a look-up before, so that each
// change is one write.
#![tactic(auto)]

pub mod keys; // the key of an address
pub mod numbers; // the number of an entry
pub mod searches; // look-ups
pub mod changes; // of one place, or of every one

pub use changes::{age, all_in_range, forget_all, learn, mark, remove, set_static};
pub use keys::{Key, bucket_of, key_of};
pub use searches::{look_up, whole_search};

#[derive(Clone, Copy)]
pub enum LookUp {
    // a match: its port and its place
    Found { port: u32, place: usize },
    // no match: the first empty place of the twenty
    Vacant(usize),
    // no match, and all twenty places in use
    Full,
}
