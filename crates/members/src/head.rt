//! The head of a book: how many members, the table of weights, and each member's age and stake.
ghost use Rattle.std.specs.Prelude.{◌≡◌, length, IfOk, if◌then◌else◌, Some, None};
ghost use Rattle.std.specs.Result.{result_err};
ghost use Rattle.members.specs.Heads.{announced, after_head, head_of, lacking, answer, seated};
ghost use Rattle.members.specs.Limits.{good_count};
ghost use Rattle.members.specs.Founding.{outcome};
ghost use Rattle.members.specs.Written.{HeadReadsBack, HeadIsItsBytes, OneBookOneMeaning};

use crate::entries::{Entries, Founding, head_length};
use crate::limits::MEMBERS;
use crate::line::count_lines;
use crate::member::Member;
use crate::refusal::{Memory, Refusal};
use crate::table::Table;

/// Places that are lent for cents, one a member, and for lines, one a line.
#[derive(Clone, Copy, PartialEq, Eq, Debug)]
pub struct Room {
    pub cents: usize,
    pub lines: usize,
}

/// An accepted head: how many members there are, and the table of weights.
#[derive(Clone, Copy, PartialEq, Eq, Debug)]
pub struct Head {
    pub count: usize,
    pub table: Table,
}

/// Reads the head of a book and seats its members in the first of the lent places, or says why the book is turned away.
pub fn read_head(book: &[u8], members: &mut [Member], room: Room) -> Result<Head, Refusal>
    ensures value { result ≡ answer (length members.old) room book.now }
    ensures members { members.new ≡ seated result book.now members.old }
    ensures back { HeadReadsBack }
    ensures bytes { HeadIsItsBytes }
    ensures once { OneBookOneMeaning }
{
    check_memory(book, members.len(), room)?;
    let founding = check_head(book)?;
    founding.seat(members);
    Ok(Head {
        count: founding.entries.count,
        table: founding.table,
    })
}

/// Whether enough memory is lent for the book; else the first that is too short.
fn check_memory(book: &[u8], places: usize, room: Room) -> Result<(), Memory>
    ensures { result_err result ≡ lacking places room book.now }
{
    let count = usize::from(announced_count(book));
    if places < count {
        return Err(Memory::Members);
    }
    if room.cents < count {
        return Err(Memory::Cents);
    }
    if room.lines < count_lines(lines_part(book)) {
        return Err(Memory::Lines);
    }
    Ok(())
}

/// The part of a book after its head, where its lines begin. A book that ends before has none.
pub fn lines_part(book: &[u8]) -> &[u8]
    ensures { result.now ≡ after_head book.now }
{
    book.get(head_length(announced_count(book))..)
        .unwrap_or(&[])
}

/// What the head of a book founds, where enough memory was lent. The checks stand in their order, here and below.
fn check_head(book: &[u8]) -> Result<Founding<'_>, Refusal>
    ensures value { outcome result ≡ head_of book.now }
    ensures book { IfOk result (λ f. f.entries.book.now ≡ book.now) }
{
    let Some(count) = member_count(book) else {
        return Err(Refusal::Count);
    };
    let Some(entries) = Entries::of(book, count) else {
        return Err(Refusal::Table { place: book.len() });
    };
    entries.checked()
}

/// How many members the book founds a society of; none where a society cannot have so many.
fn member_count(book: &[u8]) -> Option<u8>
    ensures { result ≡ (if good_count (announced book.now) then Some (announced book.now) else None) }
{
    let count = announced_count(book);
    MEMBERS.contain(u64::from(count)).then_some(count)
}

/// How many members the first byte announces; none where there is no byte.
fn announced_count(book: &[u8]) -> u8
    ensures { result ≡ announced book.now }
{
    book.first().copied().unwrap_or_default()
}
