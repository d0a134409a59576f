// The record at the front of bytes that were read and not used yet.
ghost use Rattle.std.specs.Prelude.{◌≡◌, leb, length};
ghost use Rattle.input.specs.Front.{wanted as wanted_of, front};

use records::bytes::pair;

// How many bytes are needed to judge the record at the front: those that its header says; its header alone where that is cut or says too many.
#[tactic(auto, unfolding(crate::specs::Front::wanted))]
pub fn wanted(bytes: &[u8]) -> usize
    ensures { result ≡ wanted_of bytes.now }
{
    let body = pair(bytes, 0) as usize;
    if bytes.len() < 4 || 1024 < body {
        4
    } else {
        4 + body
    }
}

// The record at the front is there whole, or is known to be refused.
pub fn ready(bytes: &[u8]) -> bool
    ensures { result ≡ leb (wanted_of bytes.now) (length bytes.now) }
{
    wanted(bytes) <= bytes.len()
}

// How many bytes of the record at the front are there.
#[tactic(auto, unfolding(crate::specs::Front::front))]
pub fn size(bytes: &[u8]) -> usize
    ensures { result ≡ length (front bytes.now) }
{
    wanted(bytes).min(bytes.len())
}
