//! The table of weights, by age.
ghost use Rattle.std.specs.Prelude.{◌≡◌, ℕ, ◌≤◌, length, if◌then◌else◌, Some, None, slice_index_or};
ghost use Rattle.members.specs.Limits.{Weight, first_age, last_age, ages, good_age};
ghost use Rattle.members.specs.Bytes.{weight_for};

use crate::limits::{AGES, TABLE_LENGTH};

#[derive(Clone, Copy, PartialEq, Eq, Debug)]
pub struct Table {
    /// one for each age, from the first on
    pub weights: [u32; TABLE_LENGTH],
    ghost whole: { length weights ≡ ages },
    ghost weighs: { (i : ℕ) → Weight (slice_index_or weights i 1) },
}

impl Table {
    /// The weight of somebody of an age, or none where the table does not have the age.
    pub fn weight(&self, age: u8) -> Option<u32>
        ensures { result ≡ (if good_age age then Some (weight_for self.now.weights age) else None) }
    {
        let age = u64::from(age);
        AGES.contain(age).then(|| self.weight_of(age))
    }

    /// The weight at an age that the table has.
    pub(crate) fn weight_of(&self, age: u64) -> u32
        requires low { first_age ≤ age }
        requires high { age ≤ last_age }
        ensures value { result ≡ weight_for self.now.weights age }
        ensures weighs { Weight result }
    {
        self.weights[(age - AGES.low) as usize]
    }
}
