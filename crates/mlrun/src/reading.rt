// Standard input, a buffer at a time: the record at the front is there whole, if the input has it.
ghost use Rattle.std.specs.Prelude.{◌≡◌, ◌+◌, ◌≤◌, ◌<◌, length, take};
ghost use Rattle.std.specs.Result.{result_unwrap_or};
ghost use Rattle.std.proofs.Math.Seq.{slice};
ghost use Rattle.input.specs.Front.{front};
ghost use Rattle.mlrun.specs.Reading.{Added, Holds};

use crate::waiting::patiently;
use input::buffer::shift;
use input::front;
use std::io;
use std::io::Read;
use std::time::Clock;

// Reads as soon as there is something to read into the buffer from a place on, which the buffer has, so that no byte means no more input.
fn more(rt: &impl Clock, stdin: &mut impl Read, buffer: &mut [u8], to: usize) -> io::Result<usize>
    requires { to < length buffer.old }
    ensures { Added to (result_unwrap_or result 0) buffer.old buffer.new }
{
    let part = &mut buffer[to..];
    patiently(rt, || stdin.read(part))
}

// Reads on until the record at the front is there, or the input ends; up to which place there are bytes then.
fn load(
    rt: &impl Clock,
    stdin: &mut impl Read,
    buffer: &mut [u8],
    there: usize,
) -> io::Result<usize>
    requires { (there ≤ length buffer.old) × (1028 ≤ length buffer.old) }
    ensures { Holds (take there buffer.old) buffer.new 0 (result_unwrap_or result there) }
{
    let mut to = there;
    while to < front::wanted(&buffer[..to]) {
        let count = more(rt, stdin, buffer, to)?;
        if count == 0 {
            break;
        }
        to += count;
    }
    Ok(to)
}

// The bytes that were read and not used yet stand in the buffer from one place to another.
#[derive(Drop)]
pub(crate) struct Reader {
    buffer: [u8; 65536],
    from: usize,
    to: usize,
    ghost ordered: { from ≤ to },
    ghost within: { to ≤ length buffer },
    // no record is longer
    ghost record_fits: { 1028 ≤ length buffer },
}

impl Reader {
    pub(crate) fn new() -> Self {
        Reader {
            buffer: [0; 65536],
            from: 0,
            to: 0,
        }
    }

    // The record at the front is there whole, or is known to be refused.
    pub(crate) fn ready(&self) -> bool {
        front::ready(&self.buffer[self.from..self.to])
    }

    // What is there moves to the front, and more is read: the record at the front is there whole, if the input has it.
    pub(crate) fn fill(&mut self, rt: &impl Clock, stdin: &mut impl Read) -> io::Result<()>
        ensures { Holds (slice self.old.from self.old.to self.old.buffer) self.new.buffer self.new.from self.new.to }
    {
        let there = shift(&mut self.buffer, self.from, self.to);
        self.from = 0;
        self.to = there;
        self.to = load(rt, stdin, &mut self.buffer, there)?;
        Ok(())
    }

    // The record at the front, as far as it is there.
    pub(crate) fn record(&self) -> &[u8]
        ensures is { result.now ≡ front (slice self.now.from self.now.to self.now.buffer) }
        ensures within { self.now.from + length result.now ≤ self.now.to }
    {
        let held = &self.buffer[self.from..self.to];
        &held[..front::size(held)]
    }

    // So many bytes at the front are used.
    pub(crate) fn pass(&mut self, size: usize)
        requires { self.old.from + size ≤ self.old.to }
        ensures { slice self.new.from self.new.to self.new.buffer ≡ slice (self.old.from + size) self.old.to self.old.buffer }
    {
        self.from += size;
    }
}
