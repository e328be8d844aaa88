//! Small societies as they were worked out by hand, run.
use crate::dealing::*;
use crate::unshared::*;
use members::Member;
use std::alloc::{AllocError, Global};
use std::process::Abort;
use std::test::Fail;

// Members with these weights and stakes, numbered from 0.
fn society(heap: Global, entries: &[(u32, u64)]) -> Result<Vec<Member>, Fail> {
    let mut members = Vec::new(heap);
    for (number, (weight, stake)) in entries.iter().enumerate() {
        let number = u8::try_from(number)?;
        members.push(Member::new(number, 50, *weight, *stake).ok_or("out of bounds")?)?;
    }
    Ok(members)
}

fn died(mut member: Member) -> Member {
    member.alive = false;
    member
}

// A death, what it is answered, and what the memory holds then, of which each place held 77 before.
fn dies(
    rt: &(impl Abort + AllocGlobal),
    entries: &[(u32, u64)],
    dead: usize,
    word: u32,
    answer: Result<(), Unshared>,
    after: &[u64],
) -> Result<(), Fail> {
    let members = society(rt.alloc(), entries)?;
    let mut cents = vec![in rt.alloc(); 77; after.len()]?;
    let told = share(members.as_slice(), dead, word, cents.as_mut_slice());
    assert_eq!(rt; told, answer);
    assert!(rt; cents.as_slice() == after);
    Ok(())
}

#[test]
fn worked_out(rt: HostRuntime) -> Result<(), Fail> {
    dies(&rt, &[(1, 10), (1, 10)], 0, 0, Ok(()), &[0, 10])?;
    let half = [(1, 6), (1, 4), (1, 2)];
    dies(&rt, &half, 0, 0, Ok(()), &[0, 4, 2])?;
    dies(&rt, &half, 1, 0, Ok(()), &[4, 0, 0])?;
    dies(&rt, &half, 2, 0, Ok(()), &[2, 0, 0])?;
    let mixed = [(2, 5), (3, 4), (1, 9)];
    dies(&rt, &mixed, 0, 0, Ok(()), &[0, 5, 0])?;
    dies(&rt, &mixed, 0, 1, Ok(()), &[0, 5, 0])?;
    dies(&rt, &mixed, 1, 2, Ok(()), &[1, 0, 3])
}
