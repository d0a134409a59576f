// One condition, as it is asked.
ghost use Rattle.std.specs.Prelude.{◌≡◌};
ghost use Rattle.model.specs.Conditions.{constant_formed, condition_formed};
ghost use Rattle.model.specs.Description.{column_count};
ghost use Rattle.conditions.specs.Facts.{Read, Numbers, asks, condition_of, number_of, passes_by};

use model::Description;

// How a value or a class is compared with the constant.
#[derive(Clone, Copy)]
pub(crate) enum Test {
    Equal,
    NotEqual,
    Less,
    AtMost,
    Null,
}

// A number that stands for no test.
#[derive(Clone, Copy)]
pub(crate) struct NoTest;

impl TryFrom<u32> for Test {
    type Error = NoTest;

    ghost try_from_gives = { Numbers };

    #[tactic(auto, unfolding(crate::specs::Facts::number_of))]
    fn try_from(number: u32) -> Result<Test, NoTest> {
        match number {
            1 => Ok(Test::Equal),
            2 => Ok(Test::NotEqual),
            3 => Ok(Test::Less),
            4 => Ok(Test::AtMost),
            5 => Ok(Test::Null),
            _ => Err(NoTest),
        }
    }
}

impl Test {
    // It is passed, where it is known whether what is tested is null, whether it is the constant, and whether it is at most the constant.
    #[tactic(auto, unfolding(crate::specs::Facts::passes_by, crate::specs::Facts::number_of))]
    pub(crate) fn passes(self, null: bool, equal: bool, most: bool) -> bool
        ensures { result ≡ passes_by (number_of self) null equal most }
    {
        match self {
            Test::Equal => !null && equal,
            Test::NotEqual => !null && !equal,
            Test::Less => !null && most && !equal,
            Test::AtMost => !null && most,
            Test::Null => null,
        }
    }
}

// A test of a column's value or of its class.
#[derive(Clone, Copy)]
pub(crate) struct Asked {
    pub(crate) column: u32,
    pub(crate) of_class: bool,
    pub(crate) test: Test,
    pub(crate) constant: u32,
}

impl Asked {
    // What four numbers ask, where the mark and the test are some.
    pub(crate) fn read(condition: [u32; 4]) -> Option<Asked>
        ensures { Read (condition_of condition) result }
    {
        let [column, mark, test, constant] = condition;
        if 1 < mark {
            return None;
        }
        let test = Test::try_from(test).ok()?;
        Some(Asked {
            column,
            of_class: mark == 1,
            test,
            constant,
        })
    }

    // The constant fits the test and what is tested.
    #[tactic(auto, unfolding(crate::specs::Facts::number_of, model::specs::Conditions::constant_formed, model::specs::Description::is_level))]
    fn constant(self, description: Description) -> bool
        ensures { result ≡ constant_formed description (asks self) }
    {
        match (self.test, self.of_class) {
            (Test::Null, _) => self.constant == 0,
            (_, false) => self.constant != 0,
            (_, true) => self.constant < u32::from(description.levels),
        }
    }

    // The column exists, and the constant fits.
    pub(crate) fn formed(self, description: Description, relation: usize, columns: usize) -> bool
        requires { columns ≡ column_count description relation }
        ensures { result ≡ condition_formed description relation (asks self) }
    {
        1 <= self.column && self.column as usize <= columns && self.constant(description)
    }
}
