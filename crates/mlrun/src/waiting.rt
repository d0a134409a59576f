// A read or a write that failed: whether it is to be made again.
ghost use Rattle.std.specs.Prelude.{◌≡◌, ℕ, ◌⊎◌, ◌↔◌, IsTrue};
ghost use Rattle.std.specs.Fn.{AlwaysReturns};
ghost use Rattle.std.specs.IoError.{error_kind};
ghost use Rattle.mlrun.specs.Moving.{MovesAtMost};

use std::io::{Error, ErrorKind};
use std::time::{Clock, Duration};
use std::{io, thread};

// How long a pause is, in nanoseconds: a hundredth of a second.
const PAUSE: u64 = 10000000;

// Waits for a moment.
fn pause(rt: &impl Clock) {
    thread::sleep(rt, Duration::from_nanos(PAUSE));
}

// Whether the call that failed so only had nothing to move yet, or was interrupted. Waits for a moment where it had nothing.
fn again(rt: &impl Clock, error: &Error) -> bool
    ensures { IsTrue result
        ↔ ((error_kind error.now ≡ ErrorKind.WouldBlock) ⊎ (error_kind error.now ≡ ErrorKind.Interrupted)) }
{
    if error.kind() == ErrorKind::WouldBlock {
        pause(rt);
        return true;
    }
    error.kind() == ErrorKind::Interrupted
}

// Makes a call until it is done, or refused for good. It moves no more than each call may.
pub(crate) fn patiently<F: FnMut() -> io::Result<usize>>(
    rt: &impl Clock,
    mut call: F,
) -> io::Result<usize>
    requires { F.IsAlwaysCallable call }
    ensures { (most : ℕ) → AlwaysReturns F.FnMut (λ _ moved. MovesAtMost most moved) call → MovesAtMost most result }
{
    let mut done = call();
    for _ in 0..u64::MAX {
        match done {
            Err(error) if again(rt, &error) => done = call(),
            _ => return done,
        }
    }
    done
}
