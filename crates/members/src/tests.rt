//! The edges of the format, run.
use crate::head::*;
use crate::line::*;
use crate::member::*;
use crate::refusal::*;
use std::alloc::{AllocError, Global};
use std::process::Abort;
use std::test::Fail;

const PLACES: usize = 255;

// A book of so many members of age 50 with a stake of 600 cents, at a weight of 1000, and no lines.
fn sample(heap: Global, count: u8) -> Result<Vec<u8>, AllocError> {
    let mut book = Vec::new(heap);
    book.push(count)?;
    for _ in 0..71 {
        book.extend_from_slice(&[232, 3, 0, 0])?;
    }
    for _ in 0..count {
        book.extend_from_slice(&[50, 88, 2, 0, 0])?;
    }
    Ok(book)
}

// Writes bytes over those of the book from a place on.
fn put(book: &mut Vec<u8>, at: usize, bytes: &[u8]) -> Result<(), Fail> {
    let end = at.checked_add(bytes.len()).ok_or("past the end")?;
    let place = book.as_mut_slice().get_mut(at..end).ok_or("past the end")?;
    place.copy_from_slice(bytes);
    Ok(())
}

// What the reader says of a book with room for everything: how many members, or number and place of a refusal.
fn answer(book: &[u8]) -> Result<usize, (u8, usize)> {
    let mut members = [Member::nobody(); PLACES];
    let room = Room {
        cents: PLACES,
        lines: 100,
    };
    read_head(book, &mut members, room)
        .map(|head| head.count)
        .map_err(|refusal| (refusal.number(), refusal.place()))
}

#[test]
fn counts(rt: HostRuntime) -> Result<(), Fail> {
    let heap = rt.alloc();
    assert_eq!(rt; answer(&[]), Err((1, 0)));
    assert_eq!(rt; answer(sample(heap, 0)?.as_slice()), Err((1, 0)));
    assert_eq!(rt; answer(sample(heap, 1)?.as_slice()), Ok(1));
    assert_eq!(rt; answer(sample(heap, 64)?.as_slice()), Ok(64));
    assert_eq!(rt; answer(sample(heap, 65)?.as_slice()), Err((1, 0)));
    assert_eq!(rt; answer(sample(heap, 255)?.as_slice()), Err((1, 0)));
    Ok(())
}

// A number of the book at its bounds, just outside them and at its largest; `refused` is what is said of those outside.
fn bounds(
    rt: &(impl Abort + AllocGlobal),
    at: usize,
    most: u32,
    above: u32,
    refused: (u8, usize),
) -> Result<(), Fail> {
    let cases = [
        (0, Err(refused)),
        (1, Ok(3)),
        (most, Ok(3)),
        (above, Err(refused)),
        (u32::MAX, Err(refused)),
    ];
    for (n, expected) in cases {
        let mut book = sample(rt.alloc(), 3)?;
        put(&mut book, at, &n.to_le_bytes())?;
        assert_eq!(rt; answer(book.as_slice()), expected);
    }
    Ok(())
}

// The first weight and the last, the first member's stake and the last's.
#[test]
fn numbers(rt: HostRuntime) -> Result<(), Fail> {
    bounds(&rt, 1, 100_000, 100_001, (2, 0))?;
    bounds(&rt, 281, 100_000, 100_001, (2, 70))?;
    bounds(&rt, 286, 100_000_000, 100_000_001, (4, 0))?;
    bounds(&rt, 296, 100_000_000, 100_000_001, (4, 2))
}

#[test]
fn ages(rt: HostRuntime) -> Result<(), Fail> {
    for member in [0usize, 2] {
        let cases = [
            (0, Err((3, member))),
            (39, Err((3, member))),
            (40, Ok(3)),
            (110, Ok(3)),
            (111, Err((3, member))),
            (255, Err((3, member))),
        ];
        for (age, expected) in cases {
            let mut book = sample(rt.alloc(), 3)?;
            put(&mut book, 285 + 5 * member, &[age])?;
            assert_eq!(rt; answer(book.as_slice()), expected);
        }
    }
    Ok(())
}

// A book of three members, 300 bytes, cut after its count, in a weight, at the table's end, in a member and just before the head's end.
#[test]
fn cuts(rt: HostRuntime) -> Result<(), Fail> {
    for length in [1usize, 2, 5, 283, 284, 285, 286, 289, 290, 299] {
        let mut book = sample(rt.alloc(), 3)?;
        book.truncate(length);
        assert_eq!(rt; answer(book.as_slice()), Err((2, length)));
    }
    Ok(())
}

// Where two refusals apply, the one that stands first in the list is told.
#[test]
fn order(rt: HostRuntime) -> Result<(), Fail> {
    // a count that is too large before a book that is too short
    assert_eq!(rt; answer(&[65]), Err((1, 0)));
    let mut book = sample(rt.alloc(), 3)?;
    // of two stakes, ages or weights the first
    put(&mut book, 291, &[0, 0, 0, 0])?;
    put(&mut book, 286, &[0, 0, 0, 0])?;
    assert_eq!(rt; answer(book.as_slice()), Err((4, 0)));
    // the age of the last member before the stake of the first
    put(&mut book, 295, &[39])?;
    assert_eq!(rt; answer(book.as_slice()), Err((3, 2)));
    put(&mut book, 290, &[111])?;
    assert_eq!(rt; answer(book.as_slice()), Err((3, 1)));
    // the last weight before any member
    put(&mut book, 281, &[0, 0, 0, 0])?;
    assert_eq!(rt; answer(book.as_slice()), Err((2, 70)));
    put(&mut book, 277, &[0, 0, 0, 0])?;
    assert_eq!(rt; answer(book.as_slice()), Err((2, 69)));
    // a book that is too short before a weight
    book.truncate(299);
    assert_eq!(rt; answer(book.as_slice()), Err((2, 299)));
    Ok(())
}

// The refusal for want of memory, where there is one.
fn short(book: &[u8], places: usize, cents: usize, lines: usize) -> Option<Memory> {
    let mut members = [Member::nobody(); PLACES];
    let room = Room { cents, lines };
    match read_head(book, members.get_mut(..places)?, room) {
        Err(Refusal::Short(memory)) => Some(memory),
        _ => None,
    }
}

// Memory is looked at before all else, for as many members as the first byte says, also where that is no society.
#[test]
fn memory(rt: HostRuntime) -> Result<(), Fail> {
    let mut book = sample(rt.alloc(), 3)?;
    // three lines, the last of which cannot be read
    book.extend_from_slice(&[2, 3, 1, 0])?;
    let whole = book.as_slice();
    assert_eq!(rt; short(whole, 3, 3, 3), None);
    assert_eq!(rt; short(whole, 2, 2, 2), Some(Memory::Members));
    assert_eq!(rt; short(whole, 3, 2, 2), Some(Memory::Cents));
    assert_eq!(rt; short(whole, 3, 3, 2), Some(Memory::Lines));
    assert_eq!(rt; short(&[65], 64, 65, 0), Some(Memory::Members));
    assert_eq!(rt; short(&[65], 65, 64, 0), Some(Memory::Cents));
    assert_eq!(rt; short(&[65], 65, 65, 0), None);
    assert_eq!(rt; short(&[], 0, 0, 0), None);
    Ok(())
}

// An accepted head takes the first places and leaves the others; a refusal leaves all.
#[test]
fn places(rt: HostRuntime) -> Result<(), Fail> {
    let mut book = sample(rt.alloc(), 2)?;
    put(&mut book, 290, &[110, 1, 0, 0, 0])?;
    put(&mut book, 281, &[7, 0, 0, 0])?;
    let room = Room { cents: 2, lines: 0 };
    let mut members = [Member::nobody(); 3];
    let head = read_head(book.as_slice(), &mut members, room)?;
    assert_eq!(rt; head.count, 2);
    assert_eq!(rt; head.table.weight(39), None);
    assert_eq!(rt; head.table.weight(40), Some(1000));
    assert_eq!(rt; head.table.weight(110), Some(7));
    assert_eq!(rt; head.table.weight(111), None);
    assert_eq!(rt; Some(members[0]), Member::new(0, 50, 1000, 600));
    assert_eq!(rt; Some(members[1]), Member::new(1, 110, 7, 1));
    assert_eq!(rt; members[2], Member::nobody());
    put(&mut book, 291, &[0, 0, 0, 0])?;
    let mut members = [Member::nobody(); 3];
    assert!(rt; read_head(book.as_slice(), &mut members, room).is_err());
    assert_eq!(rt; members, [Member::nobody(); 3]);
    Ok(())
}

// A member's bounds, and the largest product of weight and stake.
#[test]
fn makes_members(rt: HostRuntime) -> Result<(), Fail> {
    assert_eq!(rt; Member::new(0, 50, 0, 1), None);
    assert_eq!(rt; Member::new(0, 50, 100_001, 1), None);
    assert_eq!(rt; Member::new(0, 50, 1, 0), None);
    assert_eq!(rt; Member::new(0, 50, 1, 100_000_001), None);
    let largest = Member::new(63, 110, 100_000, 100_000_000).ok_or("out of bounds")?;
    assert_eq!(rt; largest.exposure(), 10_000_000_000_000);
    Ok(())
}

// What is written of a refusal and of a member: a contract does not say that a write succeeds.
#[test]
fn written(rt: HostRuntime) -> Result<(), Fail> {
    let heap = rt.alloc();
    let age = Refusal::Age { member: 2 };
    assert!(rt; format!(in heap; "{age}")?.as_str() == "refused 3 at 2");
    let lines = Refusal::from(Memory::Lines);
    assert!(rt; format!(in heap; "{lines}")?.as_str() == "refused 10 at 2");
    let mut member = Member::new(63, 50, 1, 1).ok_or("out of bounds")?;
    member.paid = 6_400_000_000;
    assert!(rt; format!(in heap; "{member}")?.as_str() == "63 paid 6400000000");
    Ok(())
}

// Each kind of line, and the part after it.
#[test]
fn lines(rt: HostRuntime) -> Result<(), Fail> {
    let part = [1, 9, 4, 3, 2, 1, 2, 3, 1, 0, 0, 0, 0];
    let (line, rest) = read_line(&part).ok_or("no line")?;
    assert_eq!(rt;
        line,
        Line::Death {
            member: 9,
            word: 0x01020304,
        }
    );
    assert_eq!(rt; rest.len(), 7);
    let (line, rest) = read_line(rest).ok_or("no line")?;
    assert_eq!(rt; line, Line::NewYear);
    let (line, rest) = read_line(rest).ok_or("no line")?;
    assert_eq!(rt; line, Line::WoundUp);
    // a death that is a byte short
    assert_eq!(rt; rest.len(), 5);
    assert!(rt; no_line(rest));
    assert_eq!(rt; count_lines(&part), 4);
    Ok(())
}

fn no_line(part: &[u8]) -> bool {
    read_line(part).is_none()
}

fn after_head(book: &[u8]) -> usize {
    lines_part(book).len()
}

// Bytes that are no line's kind, and where the lines begin.
#[test]
fn parts(rt: HostRuntime) {
    for kind in [0u8, 4, 255] {
        assert!(rt; no_line(&[kind, 2, 2]));
        assert_eq!(rt; count_lines(&[3, kind, 2, 2]), 2);
    }
    assert!(rt; no_line(&[]));
    assert_eq!(rt; count_lines(&[]), 0);
    assert_eq!(rt; after_head(&[]), 0);
    assert_eq!(rt; after_head(&[0; 285]), 0);
    assert_eq!(rt; after_head(&[0; 286]), 1);
    assert_eq!(rt; after_head(&[1; 290]), 0);
    assert_eq!(rt; after_head(&[1; 291]), 1);
    assert_eq!(rt; after_head(&[255; 1560]), 0);
    assert_eq!(rt; after_head(&[255; 1561]), 1);
}
