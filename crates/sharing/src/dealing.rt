//! A dead member's stake, dealt out cent by cent.
ghost use Rattle.std.specs.Prelude.{◌≡◌, map, length, OnOk};
ghost use Rattle.std.specs.List.{range_with_len};
ghost use Rattle.circle.specs.Circle.{whole};
ghost use Rattle.sharing.specs.Answers.{share_answer, cents_after, ToOthers, dealt};
ghost use Rattle.sharing.specs.Fair.{OneDeath};

use crate::estate::Estate;
use crate::unshared::Unshared;
use circle::units;
use members::Member;

/// The member at a place dies, and this word was drawn: leaves in the memory for cents, for each member, what it gets of the stake; or
/// says why the stake cannot be shared out, and changes nothing.
pub fn share(members: &[Member], dead: usize, word: u32, cents: &mut [u64]) -> Result<(), Unshared>
    ensures value { result ≡ share_answer (length cents.old) members.now dead word }
    ensures cents { cents.new ≡ cents_after result members.now dead word cents.old }
    ensures others { OnOk result (ToOthers members.now dead cents.new) }
    ensures death { OneDeath }
{
    let (places, _) = cents
        .split_at_mut_checked(members.len())
        .ok_or(Unshared::ShortMemory)?;
    let estate = Estate::of(members, dead, word)?;
    deal(members, &estate, places);
    Ok(())
}

/// Leaves with each of the others its part of the estate: a cent goes to the member whose unit it lands on.
fn deal(members: &[Member], estate: &Estate, cents: &mut [u64])
    requires circle { estate.now.circle.size ≡ whole members.now }
    requires places { length cents.old ≡ length members.now }
    ensures { cents.new ≡ map (λ j. dealt members.now estate.now j estate.now.cents) (range_with_len 0 (length members.now)) }
{
    cents.fill(0);
    'cents: for cent in 0..estate.cents {
        let mut left = estate.landing(cent);
        for (place, member) in members.iter().enumerate() {
            let held = units(member);
            if left < held {
                cents[place] += 1;
                continue 'cents;
            }
            left -= held;
        }
    }
}
