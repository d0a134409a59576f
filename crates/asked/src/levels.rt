// The levels of a description, and a list of levels.
ghost use Rattle.std.specs.Prelude.{◌≡◌};
ghost use Rattle.model.specs.Description.{is_level, over as over_of};
ghost use Rattle.model.specs.Listed.{among, each_level, levels_once};
ghost use Rattle.asked.specs.Known.{Ordered};

use crate::entries;
use model::Description;

// Which level of a description dominates which.
#[derive(Clone, Copy)]
pub struct Levels {
    pub description: Description,
    pub order: [[bool; 16]; 16],
    pub ghost ordered: { Ordered description order },
}

impl Levels {
    // Whether level `a` dominates level `b`.
    pub fn over(self, a: usize, b: usize) -> bool
        ensures { result ≡ over_of self.description a b }
    {
        level::over(self.order, a, b)
    }

    // Every listed level is dominated by this one.
    pub fn seen(self, list: &[u32], level: usize) -> bool
        ensures { result ≡ each_level (over_of self.description level) list.now }
    {
        list.iter().all(|listed| self.over(level, *listed as usize))
    }
}

// Every level exists.
pub fn exist(list: &[u32], description: Description) -> bool
    ensures { result ≡ each_level (is_level description) list.now }
{
    let levels = u32::from(description.levels);
    list.iter().all(|level| *level < levels)
}

// No level is listed twice.
pub fn once(list: &[u32]) -> bool
    ensures { result ≡ levels_once list.now }
{
    entries::once(list.as_chunks::<1>().0)
}

// A level is listed.
pub fn lists(list: &[u32], level: usize) -> bool
    ensures { result ≡ among list.now level }
{
    list.iter().any(|listed| *listed as usize == level)
}
