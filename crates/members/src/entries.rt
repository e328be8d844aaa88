//! The table and the members in the head of a book, read and checked.
ghost use Rattle.std.specs.Prelude.{◌≡◌, ℕ, ◌+◌, ◌<◌, ◌≤◌, ◌++◌, true, map, length, drop, nat_lt, if◌then◌else◌, Some, None, OnOk, IfOk, IfErr};
ghost use Rattle.std.specs.Int.{is_in_range};
ghost use Rattle.std.specs.List.{range_with_len};
ghost use Rattle.members.specs.Bytes.{number_in};
ghost use Rattle.members.specs.Checks.{AllGood, FirstBad};
ghost use Rattle.members.specs.Heads.{head_length, weight_at, age_at, stake_at, weights_of, table_of, member_at, bad_weight, bad_age, bad_stake, checked, entries_of};
ghost use Rattle.members.specs.Limits.{ages, good_weight, good_age, good_stake};
ghost use Rattle.members.specs.declared.refusal.Refusal.TheVariants as refusal;

use crate::limits::{
    AGES, Bounds, MEMBER_SIZE, MEMBERS_AT, STAKES, TABLE_AT, TABLE_LENGTH, WEIGHT_SIZE, WEIGHTS,
};
use crate::member::Member;
use crate::refusal::Refusal;
use crate::table::Table;
use std::array;

/// The table and the members in a book that is long enough for so many members.
#[derive(Clone, Copy)]
pub(crate) struct Entries<'a> {
    pub(crate) book: &'a [u8],
    pub(crate) count: usize,
    ghost few: { count < 256 },
    ghost long: { head_length count ≤ length book.now },
}

/// What a society is founded on: entries that are all within their bounds, and the table among them.
#[derive(Clone, Copy)]
pub(crate) struct Founding<'a> {
    pub(crate) entries: Entries<'a>,
    pub(crate) table: Table,
    ghost weights: { table.weights ≡ weights_of entries.book.now },
    ghost weighed: { (i : ℕ) → i < ages → good_weight (weight_at entries.book.now i) ≡ true },
    ghost aged: { (i : ℕ) → i < entries.count → good_age (age_at entries.book.now i) ≡ true },
    ghost staked: { (i : ℕ) → i < entries.count → good_stake (stake_at entries.book.now i) ≡ true },
}

impl<'a> Entries<'a> {
    ghost use Rattle.members.specs.Founding.{found, outcome};

    /// The entries for so many members, or none where the book ends before.
    pub(crate) fn of(book: &'a [u8], count: u8) -> Option<Entries<'a>>
        ensures { found result ≡ (if nat_lt (length book.now) (head_length count) then None else Some (book.now, count)) }
    {
        if book.len() < head_length(count) {
            return None;
        }
        let count = usize::from(count);
        Some(Entries { book, count })
    }

    /// What is founded on the entries, or the first ground on which one of them turns the book away.
    pub(crate) fn checked(&self) -> Result<Founding<'a>, Refusal>
        ensures value { outcome result ≡ entries_of self.now.book.now self.now.count }
        ensures book { IfOk result (λ f. f.entries.book.now ≡ self.now.book.now) }
    {
        self.check_weights()?;
        self.check_ages()?;
        self.check_stakes()?;
        Ok(Founding {
            entries: *self,
            table: self.table(),
        })
    }

    /// Whether each weight of the table is within the bounds.
    fn check_weights(&self) -> Result<(), Refusal>
        ensures { result ≡ checked (bad_weight self.now.book.now) ages refusal.Table tt }
    {
        check_each(TABLE_LENGTH, |index| u64::from(self.weight(index)), WEIGHTS).map_err(
            |place| Refusal::Table { place },
        )
    }

    /// Whether each of the members has an age that the table has.
    fn check_ages(&self) -> Result<(), Refusal>
        ensures { result ≡ checked (bad_age self.now.book.now self.now.count) self.now.count refusal.Age tt }
    {
        check_each(self.count, |member| u64::from(self.age(member)), AGES).map_err(
            |member| Refusal::Age { member },
        )
    }

    /// Whether each of the members has a stake within the bounds.
    fn check_stakes(&self) -> Result<(), Refusal>
        ensures { result ≡ checked (bad_stake self.now.book.now self.now.count) self.now.count refusal.Stake tt }
    {
        check_each(self.count, |member| u64::from(self.stake(member)), STAKES).map_err(
            |member| Refusal::Stake { member },
        )
    }

    /// The table, whose weights are known to be within the bounds.
    fn table(&self) -> Table
        requires { bad_weight self.now.book.now ≡ ages }
        ensures { result ≡ table_of self.now.book.now }
    {
        Table {
            weights: array::from_fn(|index| self.weight(index)),
        }
    }

    /// The weight at an index of the table.
    fn weight(&self, index: usize) -> u32
        requires { index < ages }
        ensures { result ≡ weight_at self.now.book.now index }
    {
        self.number(TABLE_AT + WEIGHT_SIZE * index)
    }

    /// The age that stands in the book for a member.
    fn age(&self, member: usize) -> u8
        requires { member < self.now.count }
        ensures { result ≡ age_at self.now.book.now member }
    {
        self.book[MEMBERS_AT + MEMBER_SIZE * member]
    }

    /// The stake that stands in the book for a member.
    fn stake(&self, member: usize) -> u32
        requires { member < self.now.count }
        ensures { result ≡ stake_at self.now.book.now member }
    {
        self.number(MEMBERS_AT + MEMBER_SIZE * member + 1)
    }

    /// The number that stands at a place of the head.
    fn number(&self, at: usize) -> u32
        requires { at + 4 ≤ head_length self.now.count }
        ensures { result ≡ number_in (drop at self.now.book.now) }
    {
        let bytes = self.book[at..].first_chunk().unwrap();
        u32::from_le_bytes(*bytes)
    }
}

impl Founding<'_> {
    /// Seats the members in the first places of lent memory.
    pub(crate) fn seat(&self, members: &mut [Member])
        requires { self.now.entries.count ≤ length members.old }
        ensures { members.new ≡ map (member_at self.now.entries.book.now) (range_with_len 0 self.now.entries.count) ++ drop self.now.entries.count members.old }
    {
        for number in 0..self.entries.count {
            members[number] = self.member(number);
        }
    }

    /// One of the members, with the weight of its age.
    fn member(&self, number: usize) -> Member
        requires { number < self.now.entries.count }
        ensures { result ≡ member_at self.now.entries.book.now number }
    {
        let age = self.entries.age(number);
        Member::joining(
            number as u8,
            age,
            self.table.weight_of(u64::from(age)),
            u64::from(self.entries.stake(number)),
        )
    }
}

/// How many bytes a head of so many members has.
pub(crate) fn head_length(count: u8) -> usize
    ensures { result ≡ head_length count }
{
    MEMBERS_AT + MEMBER_SIZE * usize::from(count)
}

/// Tells of the first of so many numbers that is out of its bounds.
fn check_each<N: Fn(usize) -> u64>(count: usize, number: N, bounds: Bounds) -> Result<(), usize>
    requires { (i : ℕ) → i < count → N.pre number i }
    ensures good { OnOk result (AllGood (N.post number) (is_in_range bounds.low bounds.high) count) }
    ensures bad { IfErr result (FirstBad (N.post number) (is_in_range bounds.low bounds.high) count) }
{
    for i in 0..count {
        if !bounds.contain(number(i)) {
            return Err(i);
        }
    }
    Ok(())
}
