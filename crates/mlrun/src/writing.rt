// Standard output, all of what is waiting at a time.
ghost use Rattle.std.specs.Prelude.{◌≡◌, ◌≤◌, length};
ghost use Rattle.mlrun.specs.Moving.{MovesAtMost};

use crate::waiting::patiently;
use std::io;
use std::io::{Error, ErrorKind, Write};
use std::time::Clock;

// The room that a step is given for what it prints. No answer takes as much: 1,024 rows of at most 117 bytes, and one line.
const ROOM: usize = 131072;

// Writes as soon as there is room for something; answers how many bytes went.
fn some(rt: &impl Clock, stdout: &mut impl Write, bytes: &[u8]) -> io::Result<usize>
    ensures { MovesAtMost (length bytes.now) result }
{
    patiently(rt, || stdout.write(bytes))
}

// What is to be written waits at the front of the buffer.
#[derive(Drop)]
pub(crate) struct Writer {
    pub(crate) buffer: [u8; 262144],
    pub(crate) waiting: usize,
    ghost within: { waiting ≤ length buffer },
    ghost answer_fits: { 131072 ≤ length buffer },
}

impl Writer {
    pub(crate) fn new() -> Self {
        Writer {
            buffer: [0; 262144],
            waiting: 0,
        }
    }

    // Writes all that is waiting. A write that takes nothing gives no reason.
    pub(crate) fn put(&mut self, rt: &impl Clock, stdout: &mut impl Write) -> io::Result<()>
        ensures { self.new.waiting ≡ 0 }
    {
        let mut rest = &self.buffer[..self.waiting];
        self.waiting = 0;
        while !rest.is_empty() {
            let count = some(rt, stdout, rest)?;
            if count == 0 {
                return Err(Error::from(ErrorKind::WriteZero));
            }
            rest = &rest[count..];
        }
        Ok(())
    }

    // Writes what is waiting where there might not be room for one more answer, or where the next record must be waited for.
    pub(crate) fn drain(
        &mut self,
        rt: &impl Clock,
        stdout: &mut impl Write,
        ready: bool,
    ) -> io::Result<()>
        ensures { self.new.waiting ≤ 131072 }
    {
        if ready && self.waiting <= ROOM {
            return Ok(());
        }
        self.put(rt, stdout)
    }
}
