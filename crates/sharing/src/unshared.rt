//! Why a stake is not shared out.

#[derive(Clone, Copy, PartialEq, Eq, Debug)]
pub enum Unshared {
    /// the memory for cents has fewer places than there are members
    ShortMemory,
    /// there is no such member, or it is dead already
    NotLiving,
    /// the word is not below the member's weight
    WordTooLarge,
    /// the members have more units than a circle can have
    TooManyUnits,
    /// somebody has more than half of all units
    OverHalf,
}
