// Labels, which of them dominates which, and the order of a list of levels.
#![tactic(auto)]

ghost use Rattle.std.specs.Prelude.{◌≡◌, ◌<◌};
ghost use Rattle.level.specs.Label.{bottom_label, dominates, height_of};
ghost use Rattle.level.specs.Order.{entry_of, level_dominates, order_of, row_of};

// A rank, and below it 8 bits, one for each compartment.
#[derive(Clone, Copy)]
pub struct Label(pub u16);

impl Label {
    // Every label dominates it.
    pub const BOTTOM: Label = Label(0);

    // The rank plus the number of compartments.
    pub fn height(self) -> u32
        ensures { result ≡ height_of self.0 }
    {
        let label = self.0 as u32;
        label / 256 + (label % 256).count_ones()
    }

    // Whether the rank is at least the other's and the compartments contain the other's.
    #[tactic(auto, using(std::proofs::lemmas::Bool::Decides::nat_tests), unfolding(crate::specs::Label::dominates, crate::specs::Label::rank_of, crate::specs::Label::compartments_of, crate::specs::Label::contains))]
    pub fn dominates(self, other: Label) -> bool
        ensures { result ≡ dominates self.0 other.0 }
    {
        let a = self.0;
        let b = other.0;
        b / 256 <= a / 256 && (a % 256) & (b % 256) == b % 256
    }
}

// The constant `Label::BOTTOM`, with the promise that a constant can't carry.
#[tactic(auto, unfolding(crate::specs::Label::bottom_label))]
pub fn bottom() -> Label
    ensures { result.0 ≡ bottom_label }
{
    Label::BOTTOM
}

// Whether level `a` dominates level `b`; false where either is no level.
#[tactic(auto, using(std::proofs::lemmas::Bool::Decides::nat_tests), unfolding(crate::specs::Order::level_dominates))]
fn entry(labels: [u16; 16], levels: usize, a: usize, b: usize) -> bool
    requires { (a < 16) × (b < 16) }
    ensures { result ≡ level_dominates labels levels a b }
{
    a < levels && b < levels && Label(labels[a]).dominates(Label(labels[b]))
}

// What level `a` dominates.
fn row(labels: [u16; 16], levels: usize, a: usize) -> [bool; 16]
    requires { a < 16 }
    ensures { result ≡ row_of labels levels a }
{
    let mut row = [false; 16];
    for b in 0..16 {
        row[b] = entry(labels, levels, a, b);
    }
    row
}

// Which level dominates which, for every pair: laid out once per call. By `array::from_fn` the proof didn't close: what a closure says of an array
// that it answers isn't found.
pub fn order(labels: [u16; 16], levels: usize) -> [[bool; 16]; 16]
    ensures { result ≡ order_of labels levels }
{
    let mut order = [[false; 16]; 16];
    for a in 0..16 {
        order[a] = row(labels, levels, a);
    }
    order
}

// One entry of what `order` laid out; false outside it.
#[tactic(auto, using(std::proofs::lemmas::Bool::Decides::nat_tests), unfolding(crate::specs::Order::entry_of))]
pub fn over(order: [[bool; 16]; 16], a: usize, b: usize) -> bool
    ensures { result ≡ entry_of order a b }
{
    a < 16 && b < 16 && order[a][b]
}
