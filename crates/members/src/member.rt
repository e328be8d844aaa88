//! A member of the society: how one is made, and what it stands to lose.
ghost use Rattle.std.specs.Prelude.{◌≡◌, ◌*◌, ◌^◌, ◌<◌, ◌&&◌, if◌then◌else◌, Some, None};
ghost use Rattle.members.specs.Limits.{Weight, Stake, good_weight, good_stake};

use crate::limits::{STAKES, WEIGHTS};
use std::fmt;

#[derive(Clone, Copy, PartialEq, Eq, Debug)]
pub struct Member {
    pub number: u8,
    pub age: u8,
    /// deaths in a year among 100,000 people of its age
    pub weight: u32,
    /// in cents, as is what it was paid
    pub stake: u64,
    pub paid: u64,
    pub alive: bool,
    ghost weighs: { Weight weight },
    ghost staked: { Stake stake },
}

/// What the society paid a member, as it is told at the end.
impl fmt::Display for Member {
    ghost use Rattle.members.specs.Members.{paid_line};

    ghost output = { λ member. Some (paid_line member) };

    fn fmt<W: fmt::Write>(&self, f: &mut fmt::Formatter<W>) -> fmt::Result {
        write!(f, "{} paid {}", self.number, self.paid)
    }
}

impl Member {
    ghost use Rattle.members.specs.Members.{newcomer, nobody};

    /// What stands in a place of lent memory that no member has taken.
    pub fn nobody() -> Member
        ensures { result ≡ nobody }
    {
        Member {
            number: 0,
            age: 0,
            weight: 1,
            stake: 1,
            paid: 0,
            alive: false,
        }
    }

    /// A living member that was paid nothing yet, or none where its weight or its stake is out of bounds.
    pub fn new(number: u8, age: u8, weight: u32, stake: u64) -> Option<Member>
        ensures { result ≡ (if good_weight weight && good_stake stake then Some (newcomer number age weight stake) else None) }
    {
        let within = WEIGHTS.contain(u64::from(weight)) && STAKES.contain(stake);
        within.then(|| Member::joining(number, age, weight, stake))
    }

    /// The same where the bounds are known.
    pub(crate) fn joining(number: u8, age: u8, weight: u32, stake: u64) -> Member
        requires weighs { Weight weight }
        requires staked { Stake stake }
        ensures { result ≡ newcomer number age weight stake }
    {
        Member {
            number,
            age,
            weight,
            stake,
            paid: 0,
            alive: true,
        }
    }

    /// Weight times stake: what it loses in a year on average, in hundred-thousandths of a cent.
    pub fn exposure(&self) -> u64
        ensures value { result ≡ self.now.weight * self.now.stake }
        ensures bound { result < 2 ^ 50 }
    {
        u64::from(self.weight) * self.stake
    }
}
