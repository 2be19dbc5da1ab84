//! Items by number.
ghost use Rattle.std.specs.Prelude.{◌≡◌, ◌==◌, ℕ, [], Some, None, MatchResult, IfErr, OnOk, OnErr, option_copied};
ghost use Rattle.std.specs.Option.{option_copied_mut};
ghost use Rattle.std.specs.Borrow.{sem};
ghost use Rattle.world_tables.specs.Tables.{item_at, put};
ghost use Rattle.world_tables.specs.Rising.{IsRising, Divides, Stands, Misses};

use crate::lists::List;
use std::alloc::{AllocFailed, Global};
use std::collections::VecDeque;
use std::marker::Model;

/// Items by number; contracts see the list of the pairs of a number and its item, in rising order of the numbers.
#[derive(Drop)]
pub struct Table<T> {
    entries: VecDeque<(u32, T)>,
}

impl<T> Model for Table<T> {
    ghost use Rattle.std.specs.Prelude.{ℕ, List as Items};
    ghost use Rattle.world_tables.specs.Rising.{IsRising};

    ghost Value = { Items (ℕ × T) };

    ghost view = { λ table. table.entries.items };

    ghost invariant = { λ table. IsRising table.entries.items };
}

impl<T> Table<T> {
    ghost use Rattle.world_tables.specs.Lends.{lends_number, lends_item};

    /// The empty table. It takes no memory.
    pub fn new(alloc: Global) -> Self
        ensures { result ≡ [] }
    {
        Table {
            entries: VecDeque::new(alloc),
        }
    }

    // Where the numbers begin that are not below this one.
    fn place(&self, number: u32) -> usize
        ensures { Divides number self.now result }
    {
        self.entries.partition_point(|entry| entry.0 < number)
    }

    // Where this number stands, or where it would stand.
    fn find(&self, number: u32) -> Result<usize, usize>
        ensures place { MatchResult result (Stands number self.now) (Misses number self.now) }
        ensures absent { OnErr result (item_at number self.now ≡ None) }
    {
        let place = self.place(number);
        match self.entries.get(place) {
            Some(entry) if entry.0 == number => Ok(place),
            _ => Err(place),
        }
    }

    /// The item with this number, if it is there.
    pub fn get(&self, number: u32) -> Option<&T>
        ensures { option_copied result ≡ item_at number self.now }
    {
        match self.find(number) {
            Ok(place) => Some(&self.entries[place].1),
            Err(_) => None,
        }
    }

    // The item that stands at this place under this number, for writing.
    fn item_mut(&mut self, number: u32, place: usize) -> &mut T
        requires { Stands number self.old place }
        ensures* writes_back { sem 𝓛 (lends_item T.row self.entry number result) }
        ensures value { item_at number self.old ≡ Some result.now }
    {
        &mut self.entries[place].1
    }

    /// The item with this number for writing, if it is there.
    pub fn get_mut(&mut self, number: u32) -> Option<&mut T>
        ensures* writes_back { sem 𝓛 (lends_number T.row self.entry number result) }
        ensures value { option_copied_mut result ≡ item_at number self.old }
    {
        match self.find(number) {
            Ok(place) => Some(self.item_mut(number, place)),
            Err(_) => None,
        }
    }

    // Adds an item at the place where its number would stand.
    fn insert(&mut self, number: u32, place: usize, item: T) -> Result<(), AllocFailed<T>>
        requires { Misses number self.old place }
        ensures ok { OnOk result (self.new ≡ put number item self.old) }
        ensures err { OnErr result (self.new ≡ self.old) }
        ensures item_returned { IfErr result (λ failed. failed.value ≡ item) }
    {
        match self.entries.insert(place, (number, item)) {
            Ok(()) => Ok(()),
            Err(failed) => Err(AllocFailed {
                value: failed.value.1,
            }),
        }
    }

    /// Keeps the item under this number, in place of one that is there. Want of memory hands it back and leaves the
    /// table as it was. A number above all others is added at the end at no cost but for the look-up.
    pub fn put(&mut self, number: u32, item: T) -> Result<(), AllocFailed<T>>
    where
        T: Drop,
        ensures ok { OnOk result (self.new ≡ put number item self.old) }
        ensures err { OnErr result (self.new ≡ self.old) }
        ensures item_returned { IfErr result (λ failed. failed.value ≡ item) }
    {
        match self.find(number) {
            Ok(place) => {
                self.entries[place].1 = item;
                Ok(())
            }
            Err(place) => self.insert(number, place, item),
        }
    }
}
