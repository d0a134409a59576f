// The columns of a relation, and which levels they take.
ghost use Rattle.std.specs.Prelude.{◌≡◌};
ghost use Rattle.model.specs.Description.{in_range, is_column};
ghost use Rattle.model.specs.Listed.{each as each_of};
ghost use Rattle.model.specs.Tables.{own_null};
ghost use Rattle.asked.specs.Facts.{rule_of};
ghost use Rattle.asked.specs.Known.{Related};

use crate::levels::Levels;
use crate::pairs::Rule;

// A relation of a description, and how many columns it has.
#[derive(Clone, Copy)]
pub struct Columns {
    pub levels: Levels,
    pub relation: usize,
    pub count: usize,
    pub ghost related: { Related levels.description relation count },
}

impl Columns {
    // The column exists.
    #[tactic(auto, unfolding(model::specs::Description::is_column, model::specs::Description::between))]
    fn exists(self, column: usize) -> bool
        ensures { result ≡ is_column self.levels.description self.relation column }
    {
        1 <= column && column <= self.count
    }

    // Whether a level is in the range of a column that exists.
    #[tactic(auto, using(crate::proofs::Levelled::in_ranges), unfolding(model::specs::Description::in_range, model::specs::Description::high_of, model::specs::Description::low_of))]
    fn takes(self, column: usize, level: usize) -> bool
        ensures { result ≡ in_range self.levels.description self.relation column level }
    {
        if !self.exists(column) {
            return false;
        }
        let at = 9 * self.relation + column;
        let low = self.levels.description.low[at] as usize;
        let high = self.levels.description.high[at] as usize;
        self.levels.over(high, level) && self.levels.over(level, low)
    }

    // The class of a column's own null at a level; where the column doesn't take the level, 255, which the tables of 01 hold for no class.
    #[tactic(auto, unfolding(model::specs::Tables::own_null))]
    pub fn null(self, column: usize, level: u8) -> u8
        ensures { result ≡ (own_null self.levels.description self.relation column level).class }
    {
        if self.takes(column, level as usize) {
            return level;
        }
        255
    }

    // One pair is as the rule asks.
    #[tactic(auto, unfolding(crate::specs::Facts::rule_of, model::specs::Description::is_level))]
    fn holds(self, rule: Rule, column: usize, second: usize) -> bool
        ensures { result ≡ rule_of self.levels.description self.relation rule column second }
    {
        match rule {
            Rule::Column => self.exists(column),
            Rule::From => self.exists(column) && second < self.levels.description.levels as usize,
            Rule::Takes { level } => self.takes(column, level),
            Rule::Lends => self.takes(column, second),
            Rule::Below { level } => self.levels.over(level, second),
            Rule::Above { level } => self.levels.over(second, level),
        }
    }

    // Every pair is as the rule asks.
    pub fn each(self, list: &[u32], rule: Rule) -> bool
        ensures { result ≡ each_of (rule_of self.levels.description self.relation rule) list.now }
    {
        let (pairs, _) = list.as_chunks::<2>();
        pairs.iter().all(|[column, second]| self.holds(rule, *column as usize, *second as usize))
    }
}
