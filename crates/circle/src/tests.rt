//! Small circles against a plain reading of the rules, and the edges of large ones, run.
use crate::circle::*;
use crate::holding::*;
use crate::place::*;
use members::Member;
use std::alloc::{AllocError, Global};
use std::process::Abort;
use std::test::Fail;

// Members with these weights and stakes, numbered from 0.
fn society(heap: Global, entries: &[(u32, u64)]) -> Result<Vec<Member>, Fail> {
    let mut members = Vec::new(heap);
    for (number, (weight, stake)) in entries.iter().enumerate() {
        let number = u8::try_from(number)?;
        members.push(Member::new(number, 50, *weight, *stake).ok_or("out of bounds")?)?;
    }
    Ok(members)
}

fn died(mut member: Member) -> Member {
    member.alive = false;
    member
}

fn circle_of(members: &[Member]) -> Result<Circle, Fail> {
    Ok(Circle::of(members).ok_or("too many units")?)
}

// 2×5, 3×4 and 1×9: the seams between the members, and the one that the turn goes over.
#[test]
fn seams(rt: HostRuntime) -> Result<(), Fail> {
    let society = society(rt.alloc(), &[(2, 5), (3, 4), (1, 9)])?;
    let members = society.as_slice();
    let circle = circle_of(members)?;
    assert_eq!(rt; (circle.size, circle.largest), (31, 12));
    for (place, from) in [(0, Some(0)), (1, Some(10)), (2, Some(22)), (3, None)] {
        assert_eq!(rt; start(members, place), from);
    }
    let owners = [
        (0, Some(0)),
        (9, Some(0)),
        (10, Some(1)),
        (21, Some(1)),
        (22, Some(2)),
        (30, Some(2)),
        (31, None),
        (u64::MAX, None),
    ];
    for (unit, place) in owners {
        assert_eq!(rt; owner(members, unit), place);
    }
    let turns = [
        (0, Some(12)),
        (18, Some(30)),
        (19, Some(0)),
        (30, Some(11)),
        (31, None),
        (u64::MAX, None),
    ];
    for (unit, turned) in turns {
        assert_eq!(rt; circle.turned(unit), turned);
    }
    Ok(())
}

// No members make an empty circle, and so do members that are dead.
#[test]
fn empty(rt: HostRuntime) -> Result<(), Fail> {
    for members in [&[], &[Member::nobody(); 3][..]] {
        let circle = circle_of(members)?;
        assert_eq!(rt; (circle.size, circle.largest), (0, 0));
        assert_eq!(rt; circle.turned(0), None);
        assert_eq!(rt; owner(members, 0), None);
    }
    Ok(())
}

// The number of the member whose unit it is.
fn name(members: &[Member], unit: u64) -> Option<u8> {
    let member = members.get(owner(members, unit)?)?;
    Some(member.number)
}

// A dead member keeps its place and has no units: the circle is that of the others alone.
#[test]
fn dead(rt: HostRuntime) -> Result<(), Fail> {
    let mut all = society(rt.alloc(), &[(2, 5), (3, 4), (1, 9)])?;
    assert!(rt; all.len() == 3);
    let others = [all[0], all[2]];
    all[1] = died(all[1]);
    let members = all.as_slice();
    assert_eq!(rt; units(&members[1]), 0);
    let circle = circle_of(members)?;
    assert_eq!(rt; (circle.size, circle.largest), (19, 10));
    assert_eq!(rt; circle, circle_of(&others)?);
    assert_eq!(rt; start(members, 1), Some(10));
    assert_eq!(rt; start(members, 2), start(&others, 1));
    for unit in 0..20 {
        assert_eq!(rt; name(members, unit), name(&others, unit));
    }
    assert_eq!(rt; owner(members, 10), Some(2));
    Ok(())
}

// A society's largest circle; one of 2^50 units less one; and 2^50 units, of which no circle is made, but owners and the starts below are told.
#[test]
fn limits(rt: HostRuntime) -> Result<(), Fail> {
    let mut entries = [(100_000, 100_000_000); 115];
    let largest = society(rt.alloc(), &entries[0..64])?;
    let circle = circle_of(largest.as_slice())?;
    assert_eq!(rt; circle.size, 640_000_000_000_000);
    assert_eq!(rt; circle.largest, 10_000_000_000_000);
    assert_eq!(rt; start(largest.as_slice(), 63), Some(630_000_000_000_000));
    entries[112] = (65_536, 90_025_433);
    entries[113] = (65_535, 1);
    let below = society(rt.alloc(), &entries[0..114])?;
    assert_eq!(rt; circle_of(below.as_slice())?.size, (1 << 50) - 1);
    entries[113] = (65_536, 1);
    let above = society(rt.alloc(), &entries)?;
    let members = above.as_slice();
    assert!(rt; members.len() == 115);
    assert!(rt; Circle::of(&members[0..114]).is_none());
    assert_eq!(rt; start(members, 113), Some((1 << 50) - 65_536));
    assert_eq!(rt; start(members, 114), None);
    assert_eq!(rt; owner(members, (1 << 50) - 1), Some(113));
    assert_eq!(rt; owner(members, 1 << 50), Some(114));
    Ok(())
}

// The circle as the rules tell it: for each unit, in their order, the place of the member that it belongs to.
fn laid_out(heap: Global, members: &[Member]) -> Result<Vec<usize>, AllocError> {
    let mut owners = Vec::new(heap);
    for (place, member) in members.iter().enumerate() {
        if member.alive {
            for _ in 0..member.weight {
                for _ in 0..member.stake {
                    owners.push(place)?;
                }
            }
        }
    }
    Ok(owners)
}

// How many of them belong to places from one on and below another.
fn count(owners: &[usize], from: usize, to: usize) -> u64 {
    owners
        .iter()
        .filter(|&place| (from..to).contains(place))
        .count() as u64
}

// Every function answers what is found in the circle as it is laid out.
fn agrees(rt: &(impl Abort + AllocGlobal), members: &[Member]) -> Result<(), Fail> {
    let owners = laid_out(rt.alloc(), members)?;
    let owners = owners.as_slice();
    let circle = circle_of(members)?;
    let size = owners.len() as u64;
    let mut largest: u64 = 0;
    for (place, member) in members.iter().enumerate() {
        let held = count(owners, place, place.saturating_add(1));
        assert_eq!(rt; units(member), held);
        assert_eq!(rt; start(members, place), Some(count(owners, 0, place)));
        largest = largest.max(held);
    }
    assert_eq!(rt; (circle.size, circle.largest), (size, largest));
    assert_eq!(rt; owner(members, size), None);
    for (unit, place) in owners.iter().enumerate() {
        let unit = unit as u64;
        assert_eq!(rt; owner(members, unit), Some(*place));
        let moved = unit.saturating_add(largest).checked_rem(size);
        assert_eq!(rt; circle.turned(unit), moved);
    }
    Ok(())
}

// A member of one of 18 kinds: weight and stake up to 3, alive or dead.
fn kind(number: u8, kind: u32) -> Result<Member, Fail> {
    let member = Member::new(number, 50, 1 + kind % 3, 1 + u64::from(kind / 3 % 3)).ok_or(
        "out of bounds",
    )?;
    Ok(if kind < 9 { member } else { died(member) })
}

// Every society of three such members.
#[test]
fn small(rt: HostRuntime) -> Result<(), Fail> {
    for a in 0..18 {
        for b in 0..18 {
            for c in 0..18 {
                let members = [kind(0, a)?, kind(1, b)?, kind(2, c)?];
                agrees(&rt, &members)?;
            }
        }
    }
    Ok(())
}
