//! Why a book's head is turned away.
ghost use Rattle.std.specs.Prelude.{◌≡◌, Some};
ghost use Rattle.members.specs.Refusals.{number_of, place_of, told_as, ToldApart};
ghost use Rattle.members.specs.declared.refusal.Refusal.TheVariants.{Short};

use std::error::Error;
use std::fmt;

/// A memory that is lent to the reader.
#[derive(Clone, Copy, PartialEq, Eq, Debug)]
pub enum Memory {
    Members,
    Cents,
    Lines,
}

#[derive(Clone, Copy, PartialEq, Eq, Debug)]
pub enum Refusal {
    /// no members, or more than a society can have
    Count,
    /// the book ends before its lines begin, told by its length; or a weight is out of bounds, told by its index
    Table { place: usize },
    /// the age of a member is not one of the table's
    Age { member: usize },
    /// the stake of a member is out of bounds
    Stake { member: usize },
    /// too little memory was lent
    Short(Memory),
}

impl fmt::Display for Refusal {
    ghost output = { λ refusal. Some (told_as refusal) };

    fn fmt<W: fmt::Write>(&self, f: &mut fmt::Formatter<W>) -> fmt::Result {
        write!(f, "refused {} at {}", self.number(), self.place())
    }
}

impl Error for Refusal {}

impl From<Memory> for Refusal {
    ghost from_gives = { λ memory refusal. refusal ≡ Short memory };

    fn from(memory: Memory) -> Refusal {
        Refusal::Short(memory)
    }
}

impl Refusal {
    /// The number by which a refusal is told. With its place it names one refusal.
    pub fn number(&self) -> u8
        ensures value { result ≡ number_of self.now }
        ensures apart { ToldApart }
    {
        match self {
            Refusal::Count => 1,
            Refusal::Table { .. } => 2,
            Refusal::Age { .. } => 3,
            Refusal::Stake { .. } => 4,
            Refusal::Short(_) => 10,
        }
    }

    /// Where in the book, or in which memory, the ground of the refusal lies.
    pub fn place(&self) -> usize
        ensures { result ≡ place_of self.now }
    {
        match self {
            Refusal::Count => 0,
            Refusal::Table { place } => *place,
            Refusal::Age { member } | Refusal::Stake { member } => *member,
            Refusal::Short(Memory::Members) => 0,
            Refusal::Short(Memory::Cents) => 1,
            Refusal::Short(Memory::Lines) => 2,
        }
    }
}
