//! The ready queue that lines tell of: a list of entries, of which one with a smaller place stands
//! before one with a greater. An entry is found by its subject, and the first to be chosen by its
//! rank, so that no call passes over the list.
ghost use Rattle.std.specs.Prelude.{◌≡◌, ℕ, [], cond, IfOk, OnOk, OnErr, Some, None};
ghost use Rattle.std.specs.Ordering.{nat_cmp};
ghost use Rattle.std.specs.BTreeMap.{get, is_at, insert_entry};
ghost use Rattle.std.specs.Map.{lookup};
ghost use Rattle.trace_text.specs.Queue.{who_eq, without, entry_of, placed, head_of};
ghost use Rattle.trace_text.specs.declared.events.QueueEnd.TheVariants.{Head, Tail};
ghost use Rattle.trace_lines.specs.declared.ranks.Rank.{Rank};
ghost use Rattle.trace_lines.specs.Places.{subject_number, rank_cmp, rank_of};
ghost use Rattle.trace_lines.specs.Places.{entry_at, without_place, unranked};

use crate::ranks::{Rank, rank_of};
use ann_base::NoMemory;
use std::alloc::Global;
use std::collections::BTreeMap;
use std::marker::Model;
use trace_text::{Entry, QueueEnd, Who};

/// The place that the first entry takes. As many places lie before it as behind it.
const MIDDLE: u64 = 1 << 63;

/// Whether both are the same subject.
pub fn is_same(a: Who, b: Who) -> bool
    ensures { result ≡ who_eq a b }
{
    match (a, b) {
        (Who::Task(a), Who::Task(b)) => a.0 == b.0,
        (Who::Task(_), Who::Agent) => false,
        (Who::Agent, Who::Task(_)) => false,
        (Who::Agent, Who::Agent) => true,
    }
}

/// A ready queue. Contracts see the list of its entries.
#[derive(Drop)]
pub struct ReadyQueue {
    // The entries by their places.
    entries: BTreeMap<u64, Entry>,
    // The place of each subject that has an entry, by its number.
    places: BTreeMap<u64, u64>,
    // The entries in the order in which they are chosen.
    ranks: BTreeMap<Rank, Entry>,
    // No place is below the first, and each is below the next.
    first: u64,
    next: u64,
}

impl Model for ReadyQueue {
    ghost use Rattle.std.specs.Prelude.{List};
    ghost use Rattle.std.specs.Ordering.{nat_cmp};
    ghost use Rattle.std.specs.BTreeMap.{get};
    ghost use Rattle.std.specs.Map.{values_of};
    ghost use Rattle.trace_text.specs.declared.events.Entry.{Entry};
    ghost use Rattle.trace_lines.specs.Places.{rank_cmp, IsKept};

    ghost Value = { List Entry };

    ghost view = { λ queue. values_of queue.entries.entries };

    ghost invariant = { λ queue.
        IsKept queue.entries.entries (get nat_cmp queue.places) (get rank_cmp queue.ranks)
        queue.first queue.next };
}

impl ReadyQueue {
    /// A queue in which nobody is.
    pub fn new(alloc: Global) -> ReadyQueue
        ensures { result ≡ [] }
    {
        ReadyQueue {
            entries: BTreeMap::new(alloc),
            places: BTreeMap::new(alloc),
            ranks: BTreeMap::new(alloc),
            first: MIDDLE,
            next: MIDDLE,
        }
    }

    /// The entry of a subject.
    pub fn entry(&self, who: Who) -> Option<Entry>
        ensures { result ≡ entry_of who self.now }
    {
        match self.places.get(&number_of(who)) {
            None => None,
            Some(place) => self.entries.get(place).copied(),
        }
    }

    /// The entry before which no other goes; of several such the one with the smallest place
    /// (D.2.1, D.2.6).
    pub fn head(&self) -> Option<Entry>
        ensures { result ≡ head_of self.now }
    {
        match self.ranks.first_key_value() {
            None => None,
            Some((_, entry)) => Some(*entry),
        }
    }

    /// Takes a subject out.
    pub fn remove(&mut self, who: Who)
        ensures { self.new ≡ without who self.old }
    {
        let place = self.places.remove(&number_of(who));
        take_out(&mut self.entries, &mut self.ranks, place);
    }

    /// Places a subject at an end, and nowhere else. A queue that has used up its places answers as
    /// one that wants memory.
    pub fn place(&mut self, end: QueueEnd, entry: Entry) -> Result<(), NoMemory>
        ensures placed { OnOk result (self.new ≡ placed end entry self.old) }
        ensures unchanged { OnErr result (self.new ≡ self.old) }
    {
        match end {
            QueueEnd::Head => self.place_first(entry),
            QueueEnd::Tail => self.place_last(entry),
        }
    }

    fn place_first(&mut self, entry: Entry) -> Result<(), NoMemory>
        ensures placed { OnOk result (self.new ≡ placed Head entry self.old) }
        ensures unchanged { OnErr result (self.new ≡ self.old) }
    {
        if self.first == 0 {
            return Err(NoMemory);
        }
        let place = self.first - 1;
        let before = put_in(
            &mut self.entries,
            &mut self.places,
            &mut self.ranks,
            place,
            entry,
        )?;
        take_out(&mut self.entries, &mut self.ranks, before);
        self.first = place;
        Ok(())
    }

    fn place_last(&mut self, entry: Entry) -> Result<(), NoMemory>
        ensures placed { OnOk result (self.new ≡ placed Tail entry self.old) }
        ensures unchanged { OnErr result (self.new ≡ self.old) }
    {
        if self.next == u64::MAX {
            return Err(NoMemory);
        }
        let place = self.next;
        let before = put_in(
            &mut self.entries,
            &mut self.places,
            &mut self.ranks,
            place,
            entry,
        )?;
        take_out(&mut self.entries, &mut self.ranks, before);
        self.next = place + 1;
        Ok(())
    }
}

// The number under which the place of a subject is found.
fn number_of(who: Who) -> u64
    ensures { result ≡ subject_number who }
{
    match who {
        Who::Task(task) => task.0 as u64 + 1,
        Who::Agent => 0,
    }
}

// Adds an entry at a place that nobody has, and answers the place that its subject had before.
fn put_in(
    entries: &mut BTreeMap<u64, Entry>,
    places: &mut BTreeMap<u64, u64>,
    ranks: &mut BTreeMap<Rank, Entry>,
    place: u64,
    entry: Entry,
) -> Result<Option<u64>, NoMemory>
    requires unused { lookup (is_at (nat_cmp place)) entries.old.entries ≡ None }
    requires unranked { get rank_cmp ranks.old (rank_of place entry) ≡ None }
    ensures before { IfOk result
        (λ before. before ≡ get nat_cmp places.old (subject_number entry.who)) }
    ensures entries { OnOk result
        (entries.new.entries ≡ insert_entry nat_cmp entries.old.entries place entry) }
    ensures places { OnOk result
        ((number : ℕ)
        → get nat_cmp places.new number
        ≡ cond (is_at (nat_cmp (subject_number entry.who)) number) (Some place)
        (get nat_cmp places.old number)) }
    ensures ranks { OnOk result
        ((rank : Rank)
        → get rank_cmp ranks.new rank
        ≡ cond (is_at (rank_cmp (rank_of place entry)) rank) (Some entry)
        (get rank_cmp ranks.old rank)) }
    ensures entries_stay { OnErr result (entries.new.entries ≡ entries.old.entries) }
    ensures places_stay { OnErr result
        ((number : ℕ) → get nat_cmp places.new number ≡ get nat_cmp places.old number) }
    ensures ranks_stay { OnErr result
        ((rank : Rank) → get rank_cmp ranks.new rank ≡ get rank_cmp ranks.old rank) }
{
    put_ranked(entries, ranks, place, entry)?;
    match places.insert(number_of(entry.who), place) {
        Ok(before) => Ok(before),
        Err(_) => {
            entries.remove(&place);
            ranks.remove(&rank_of(place, entry));
            Err(NoMemory)
        }
    }
}

// Adds an entry at a place that nobody has.
fn put_ranked(
    entries: &mut BTreeMap<u64, Entry>,
    ranks: &mut BTreeMap<Rank, Entry>,
    place: u64,
    entry: Entry,
) -> Result<(), NoMemory>
    requires unused { lookup (is_at (nat_cmp place)) entries.old.entries ≡ None }
    requires unranked { get rank_cmp ranks.old (rank_of place entry) ≡ None }
    ensures entries { OnOk result
        (entries.new.entries ≡ insert_entry nat_cmp entries.old.entries place entry) }
    ensures ranks { OnOk result
        ((rank : Rank)
        → get rank_cmp ranks.new rank
        ≡ cond (is_at (rank_cmp (rank_of place entry)) rank) (Some entry)
        (get rank_cmp ranks.old rank)) }
    ensures entries_stay { OnErr result (entries.new.entries ≡ entries.old.entries) }
    ensures ranks_stay { OnErr result
        ((rank : Rank) → get rank_cmp ranks.new rank ≡ get rank_cmp ranks.old rank) }
{
    entries.insert(place, entry)?;
    match ranks.insert(rank_of(place, entry), entry) {
        Ok(_) => Ok(()),
        Err(_) => {
            entries.remove(&place);
            Err(NoMemory)
        }
    }
}

// Takes out the entry at a place, if there is one.
fn take_out(
    entries: &mut BTreeMap<u64, Entry>,
    ranks: &mut BTreeMap<Rank, Entry>,
    place: Option<u64>,
)
    ensures entries { entries.new.entries ≡ without_place place entries.old.entries }
    ensures ranks { (rank : Rank)
        → get rank_cmp ranks.new rank
        ≡ unranked place (entry_at place entries.old.entries) rank (get rank_cmp ranks.old rank) }
{
    if let Some(place) = place {
        if let Some(entry) = entries.remove(&place) {
            ranks.remove(&rank_of(place, entry));
        }
    }
}
