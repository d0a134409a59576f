// Numbers in bytes, little-endian. A byte behind the end counts 0.
ghost use Rattle.std.specs.Prelude.{◌≡◌, get_or, drop};
ghost use Rattle.records.specs.Bytes.{pair as pair_of, quad as quad_of};

// What stands from a place on, nothing from behind the end.
fn rest(bytes: &[u8], at: usize) -> &[u8]
    ensures { result.now ≡ drop at bytes.now }
{
    bytes.get(at..).unwrap_or(&[])
}

// One byte.
fn byte(bytes: &[u8], at: usize) -> u8
    ensures { result ≡ get_or bytes.now at 0 }
{
    bytes.get(at).copied().unwrap_or(0)
}

// Two bytes.
pub fn pair(bytes: &[u8], at: usize) -> u16
    ensures { result ≡ pair_of bytes.now at }
{
    let rest = rest(bytes, at);
    u16::from_le_bytes([byte(rest, 0), byte(rest, 1)])
}

// Four bytes.
pub fn quad(bytes: &[u8], at: usize) -> u32
    ensures { result ≡ quad_of bytes.now at }
{
    let rest = rest(bytes, at);
    u32::from_le_bytes([byte(rest, 0), byte(rest, 1), byte(rest, 2), byte(rest, 3)])
}
