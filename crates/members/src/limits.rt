//! The bounds of a society, where its parts stand in a book, and the check of a bound.
ghost use Rattle.std.specs.Prelude.{◌≡◌};
ghost use Rattle.std.specs.Int.{is_in_range};

/// The least and the largest number that can stand for something.
#[derive(Clone, Copy)]
pub(crate) struct Bounds {
    pub(crate) low: u64,
    pub(crate) high: u64,
}

/// How many members a society has.
pub(crate) const MEMBERS: Bounds = Bounds { low: 1, high: 64 };

/// A weight, the deaths in a year among 100,000 people of one age.
pub(crate) const WEIGHTS: Bounds = Bounds {
    low: 1,
    high: 100_000,
};

/// A stake, in cents.
pub(crate) const STAKES: Bounds = Bounds {
    low: 1,
    high: 100_000_000,
};

/// The ages that the table has.
pub(crate) const AGES: Bounds = Bounds { low: 40, high: 110 };

/// How many they are.
pub(crate) const TABLE_LENGTH: usize = (AGES.high - AGES.low) as usize + 1;

/// The table stands after the byte that counts the members, four bytes to a weight.
pub(crate) const TABLE_AT: usize = 1;

pub(crate) const WEIGHT_SIZE: usize = 4;

/// The members stand after the table, each with a byte of age and four of stake.
pub(crate) const MEMBERS_AT: usize = TABLE_AT + WEIGHT_SIZE * TABLE_LENGTH;

pub(crate) const MEMBER_SIZE: usize = 5;

impl Bounds {
    /// Whether a number lies within the bounds.
    pub(crate) fn contain(self, n: u64) -> bool
        ensures { result ≡ is_in_range self.low self.high n }
    {
        (self.low..=self.high).contains(&n)
    }
}
