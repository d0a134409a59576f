// A list as entries of some numbers each.
ghost use Rattle.std.specs.Prelude.{◌≡◌, not, eqb, length, get_or, ◌<◌};
ghost use Rattle.bounded.specs.Bounded.{all_below};
ghost use Rattle.model.specs.Description.{distinct_below};
ghost use Rattle.asked.specs.Facts.{first_of};

// No entry before entry `i` begins with the same number.
fn apart<const N: usize>(entries: &[[u32; N]], i: usize) -> bool
    requires nonempty { 0 < N }
    requires known { i < length entries.now }
    ensures { result ≡ all_below i (λ j. not (eqb (first_of entries.now i) (first_of entries.now j))) }
{
    let first = entries[i][0];
    for before in &entries[..i] {
        if before[0] == first {
            return false;
        }
    }
    true
}

// No two entries begin with the same number.
pub(crate) fn once<const N: usize>(entries: &[[u32; N]]) -> bool
    requires { 0 < N }
    ensures { result ≡ distinct_below (length entries.now) (first_of entries.now) }
{
    for i in 0..entries.len() {
        if !apart(entries, i) {
            return false;
        }
    }
    true
}
