// The bench program's records and lines, on slices.
#![tactic(auto)]

mod framing;
mod kinds;
mod lines;
mod reading;
mod requests;

pub use framing::{Next, next_in};
pub use lines::{line, put_line};
pub use reading::kind_of;
pub use requests::{frame_of, request_of};
