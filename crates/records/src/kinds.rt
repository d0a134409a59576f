// The kinds of statements, as a table.
ghost use Rattle.std.specs.Prelude.{◌≡◌, ◌≤◌};
ghost use Rattle.records.specs.Kinds.{width, numbers, is_kind, number_of, lists as lists_of, form_of};

use model::What;

// What an entry of a list is.
#[derive(Clone, Copy)]
pub enum Entry {
    // a level
    Level,
    // a column and a FROM level
    Borrow,
    // a column and a value
    Cell,
    // a column, a mark, a test and a constant
    Condition,
}

impl Entry {
    // How many bytes an entry has.
    #[tactic(auto, unfolding(crate::specs::Kinds::width))]
    pub(crate) fn width(self) -> usize
        ensures { (result ≡ width self) × (result ≤ 10) }
    {
        match self {
            Entry::Level => 2,
            Entry::Borrow => 4,
            Entry::Cell => 6,
            Entry::Condition => 10,
        }
    }

    // How many numbers an entry is.
    #[tactic(auto, unfolding(crate::specs::Kinds::numbers))]
    pub(crate) fn numbers(self) -> usize
        ensures { (result ≡ numbers self) × (result ≤ 4) }
    {
        match self {
            Entry::Level => 1,
            Entry::Borrow | Entry::Cell => 2,
            Entry::Condition => 4,
        }
    }
}

// What a statement's record has behind its level and its relation: where its list begins, if it has one, what an entry of it is, and what a condition
// is, if it has conditions.
#[derive(Clone, Copy)]
pub struct Form {
    pub at: usize,
    pub list: Option<Entry>,
    pub conditions: Option<Entry>,
}

// Whether a kind is a statement's.
#[tactic(auto, unfolding(crate::specs::Kinds::is_kind, model::specs::Description::between))]
pub(crate) fn is_kind(kind: u16) -> bool
    ensures { result ≡ is_kind kind }
{
    (16..=20).contains(&kind)
}

// A list from a place on, of such entries, and such conditions behind it.
fn lists(at: usize, list: Option<Entry>, conditions: Option<Entry>) -> Form
    ensures { result ≡ lists_of at list conditions }
{
    Form {
        at,
        list,
        conditions,
    }
}

// The form of each kind, a line a kind.
#[tactic(auto, unfolding(crate::specs::Kinds::form_of, crate::specs::Kinds::number_of))]
pub(crate) fn form_of(what: What) -> Form
    ensures { result ≡ form_of (number_of what) }
{
    match what {
        What::Insert => lists(8, Some(Entry::Cell), None),
        What::Delete => lists(8, None, Some(Entry::Condition)),
        What::Update => lists(8, Some(Entry::Cell), Some(Entry::Condition)),
        What::Uplevel { .. } => lists(14, Some(Entry::Borrow), None),
        What::Select => lists(8, Some(Entry::Level), Some(Entry::Condition)),
    }
}
