// What ends a run before its input ends.
use arrayvec::ArrayString;
use std::fmt::Write;
use std::io::Error;

#[derive(Clone, Copy)]
pub enum Failure {
    Reading(Error),
    Writing(Error),
}

// In the system's words alone: without the error's number, which the library puts behind them.
fn words_of(error: Error) -> ArrayString<128> {
    let mut all = ArrayString::new();
    // A longer text is cut short.
    let _ = write!(all, "{error}");
    match all.as_str().split_once(" (os error ") {
        Some((words, _)) => ArrayString::from(words).unwrap_or(all),
        None => all,
    }
}

// A line on standard error.
pub fn tell(rt: &impl Eprint, failure: Failure) {
    let (what, error) = match failure {
        Failure::Reading(error) => ("reading", error),
        Failure::Writing(error) => ("writing", error),
    };
    let words = words_of(error);
    // Where nothing can be written there, the exit status tells alone.
    let _ = eprintln!(rt; "bench: {what}: {words}");
}
