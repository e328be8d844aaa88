//! How many units a member holds.
ghost use Rattle.std.specs.Prelude.{◌≡◌, ◌<◌};
ghost use Rattle.circle.specs.Circle.{unit_limit, units};

use members::Member;

/// Weight times stake while the member lives. The dead have none.
pub fn units(member: &Member) -> u64
    ensures value { result ≡ units member.now }
    ensures bound { result < unit_limit }
{
    if member.alive { member.exposure() } else { 0 }
}
