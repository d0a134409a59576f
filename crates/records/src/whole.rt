// A record's header, and the order of the records.
ghost use Rattle.std.specs.Prelude.{◌≡◌};
ghost use Rattle.records.specs.Record.{whole as whole_of, follows as follows_of, kind_after};

use crate::bytes::pair;
use crate::kinds::is_kind;

// Whether a record is neither cut nor longer than its header says, with a body of at most 1,024 bytes.
#[tactic(auto, unfolding(crate::specs::Record::whole, crate::specs::Record::size_of))]
pub(crate) fn is_whole(bytes: &[u8]) -> bool
    ensures { result ≡ whole_of bytes.now }
{
    let body = pair(bytes, 0) as usize;
    4 <= bytes.len() && body <= 1024 && bytes.len() == 4 + body
}

// Whether a kind is known and may come after the last one, none where none has come.
#[tactic(auto, unfolding(crate::specs::Record::follows, crate::specs::Record::last_within, model::specs::Description::between))]
fn follows(last: Option<u16>, kind: u16) -> bool
    ensures { result ≡ follows_of last kind }
{
    match kind {
        1 => last.is_none(),
        2 => matches!(last, Some(1..=2)),
        3 => matches!(last, Some(1..=3)),
        _ => is_kind(kind) && last.is_some(),
    }
}

// The kind of a record that is whole and in order, none of any other. It stays a number: an enum would be narrower than what is asked here, of any
// record and after any.
#[tactic(auto, unfolding(crate::specs::Record::kind_after))]
pub fn kind(bytes: &[u8], last: Option<u16>) -> Option<u16>
    ensures { result ≡ kind_after last bytes.now }
{
    let kind = pair(bytes, 2);
    (is_whole(bytes) && follows(last, kind)).then_some(kind)
}
