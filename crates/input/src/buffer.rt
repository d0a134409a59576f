// The bytes that were read and not used yet, in their buffer.
ghost use Rattle.input.specs.Buffer.{Shifted};

// Moves what stands from one place to another to the front of the buffer; answers how many bytes that are. What stands behind them stays.
pub fn shift(buffer: &mut [u8], from: usize, to: usize) -> usize
    ensures { Shifted from to buffer.old buffer.new result }
{
    let to = to.min(buffer.len());
    let from = from.min(to);
    buffer.copy_within(from..to, 0);
    to - from
}
