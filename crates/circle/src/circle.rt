//! A circle of units, by its two numbers: how it is measured, and its turn.
ghost use Rattle.std.specs.Prelude.{◌≡◌, ◌<◌, ◌≤◌};
ghost use Rattle.circle.specs.Circle.{unit_limit};

use crate::holding::units;
use members::Member;

/// No circle of so many units or more is made.
const UNIT_LIMIT: u64 = 1 << 50;

#[derive(Clone, Copy, PartialEq, Eq, Debug)]
pub struct Circle {
    /// all units together, W in the rules
    pub size: u64,
    /// the largest number of units that one member has, M in the rules
    pub largest: u64,
    ghost within: { largest ≤ size },
    ghost bounded: { size < unit_limit },
}

impl Circle {
    ghost use Rattle.circle.specs.Answers.{circle_answer, turn_answer, numbers, ToldByNumbers};
    ghost use Rattle.circle.specs.Laws.{UnitsBounded, MostIsLargest, TurnPermutes};
    ghost use Rattle.circle.specs.Living.{NoUnitsNoChange, DeadChangeNothing};

    /// The circle of these members, or none where they have too many units, which at most 64 members never have.
    pub fn of(members: &[Member]) -> Option<Circle>
        ensures value { numbers result ≡ circle_answer members.now }
        ensures told { ToldByNumbers }
        ensures bounded { UnitsBounded }
        ensures largest { MostIsLargest }
        ensures one_out { NoUnitsNoChange }
        ensures dead_out { DeadChangeNothing }
    {
        let mut size = 0;
        let mut largest: u64 = 0;
        for member in members {
            let held = units(member);
            size += held;
            if size >= UNIT_LIMIT {
                return None;
            }
            largest = largest.max(held);
        }
        Some(Circle { size, largest })
    }

    /// A unit turned by the largest holding, or none where the circle has no such unit.
    pub fn turned(&self, unit: u64) -> Option<u64>
        ensures value { result ≡ turn_answer self.now unit }
        ensures permutes { TurnPermutes }
    {
        if unit >= self.size {
            return None;
        }
        let moved = unit + self.largest;
        if moved < self.size {
            Some(moved)
        } else {
            Some(moved - self.size)
        }
    }
}
