//! Where the units of each member lie, and whose each unit is. A member goes by its place in the slice, which is its number in a society.
ghost use Rattle.std.specs.Prelude.{◌≡◌};
ghost use Rattle.circle.specs.Answers.{start_answer, owner_answer};
ghost use Rattle.circle.specs.Laws.{OneOwner, OwnsItsUnits, EndToEnd};

use crate::circle::Circle;
use crate::holding::units;
use members::Member;

/// Where the units of the member at a place start; none where there is no such member, or where too many units lie before it.
pub fn start(members: &[Member], place: usize) -> Option<u64>
    ensures value { result ≡ start_answer members.now place }
    ensures filled { EndToEnd }
{
    if place >= members.len() {
        return None;
    }
    let before = Circle::of(&members[..place])?;
    Some(before.size)
}

/// The place of the member whose unit it is; none past the last unit.
pub fn owner(members: &[Member], unit: u64) -> Option<usize>
    ensures value { result ≡ owner_answer members.now unit }
    ensures once { OneOwner }
    ensures each { OwnsItsUnits }
{
    let mut left = unit;
    for (place, member) in members.iter().enumerate() {
        let held = units(member);
        if left < held {
            return Some(place);
        }
        left -= held;
    }
    None
}
