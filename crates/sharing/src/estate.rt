//! What a member leaves when it dies: how it is found, and where its cents land.
ghost use Rattle.std.specs.Prelude.{◌≡◌, ℕ, ◌+◌, ◌*◌, ◌<◌, IfOk, if◌then◌else◌, Some, None};
ghost use Rattle.circle.specs.Circle.{member_of};

use crate::unshared::Unshared;
use circle::{Circle, start};
use members::Member;

/// The cents of a dead member's stake, each with the unit that it stands for on the circle as it was before the death.
#[derive(Clone, Copy, PartialEq, Eq, Debug)]
pub(crate) struct Estate {
    pub(crate) circle: Circle,
    /// the unit of the first cent, and how much further on that of each next cent lies
    pub(crate) first: u64,
    pub(crate) step: u64,
    pub(crate) cents: u64,
    ghost within: { (c : ℕ) → c < cents → first + c * step < circle.size },
}

impl Estate {
    ghost use Rattle.sharing.specs.Answers.{grounds, bare, LeftBy, landing};

    /// What the member at a place leaves when it dies and this word is drawn, or why it cannot be shared out.
    pub(crate) fn of(members: &[Member], dead: usize, word: u32) -> Result<Estate, Unshared>
        ensures value { bare result ≡ grounds members.now dead word }
        ensures left { IfOk result (LeftBy members.now dead word) }
    {
        let Some(member) = living(members, dead) else {
            return Err(Unshared::NotLiving);
        };
        if word >= member.weight {
            return Err(Unshared::WordTooLarge);
        }
        let Some(from) = start(members, dead) else {
            return Err(Unshared::TooManyUnits);
        };
        let Some(circle) = Circle::of(members) else {
            return Err(Unshared::TooManyUnits);
        };
        if 2 * circle.largest > circle.size {
            return Err(Unshared::OverHalf);
        }
        let word = u64::from(word);
        let weight = u64::from(member.weight);
        Ok(Estate {
            circle,
            first: from + word,
            step: weight,
            cents: member.stake,
        })
    }

    /// The unit that a cent lands on: the one that it stands for, turned.
    pub(crate) fn landing(&self, cent: u64) -> u64
        requires { cent < self.now.cents }
        ensures { result ≡ landing self.now cent }
    {
        let unit = self.first + cent * self.step;
        self.circle.turned(unit).unwrap()
    }
}

/// The member at a place, where there is one and it lives.
fn living(members: &[Member], place: usize) -> Option<Member>
    ensures { result ≡ (if (member_of members.now place).alive then Some (member_of members.now place) else None) }
{
    members.get(place).copied().filter(|member| member.alive)
}
