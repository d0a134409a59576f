// What is told on standard error where the run can't go on.
ghost use Rattle.std.specs.Prelude.{◌≤◌, length};

use std::io::{Eprint, Error, Write};

// Why the run can't go on.
#[derive(Clone, Copy)]
pub(crate) enum Stop {
    Unread(Error),
    Unwritten(Error),
}

// How many bytes of an error's text there is room for. The system's longest text has 49, and its number stands behind it.
const LONGEST: usize = 128;

// The system's words, without its number for them.
fn words(text: &str) -> &str {
    text.split_once(" (os error ")
        .map_or(text, |(words, _)| words)
}

// The error's text goes to the front of the room; how long it is.
fn spell(error: &Error, room: &mut [u8]) -> usize
    ensures { result ≤ length room.old }
{
    let all = room.len();
    let mut rest = room;
    let _ = write!(rest, "{error}");
    all.saturating_sub(rest.len())
}

// A line that says what failed, and why.
pub(crate) fn tell(rt: &impl Eprint, stop: Stop) {
    let (what, error) = match stop {
        Stop::Unread(error) => ("mlrun: standard input can't be read", error),
        Stop::Unwritten(error) => ("mlrun: standard output can't be written", error),
    };
    let mut room = [0u8; LONGEST];
    let count = spell(&error, &mut room);
    let text = str::from_utf8(&room[..count]).unwrap_or("");
    let words = words(text);
    let _ = eprintln!(rt; "{what}: {words}");
}
