//! A list that grows and shrinks at both ends.
ghost use Rattle.std.specs.Prelude.{◌≡◌, ◌==◌, ◌≤◌, ◌++◌, ◌∷◌, [], length, IfErr, OnOk, OnErr};
ghost use Rattle.std.specs.Prelude.{slice_get, option_copied, insert, remove, slice_index_or};
ghost use Rattle.std.specs.Option.{option_copied_mut};
ghost use Rattle.std.specs.Borrow.{sem};
ghost use Rattle.std.specs.Iterator.Runs.{YieldsRefsInOrder};
ghost use Rattle.std.specs.Fn.{CalledAt};
ghost use Rattle.std.specs.List.Retain.{IsFiltered};
ghost use Rattle.std.specs.VecDeque.Iter.{deque_iter_rest, deque_iter_steps};
ghost use Rattle.world_tables.specs.Lists.{first_of, rest_of};

use std::alloc::{AllocError, AllocFailed, Global};
use std::collections::VecDeque;
use std::collections::vec_deque::Iter;
use std::marker::Model;

/// A list of items; contracts see the list itself, its front the head.
#[derive(Drop)]
pub struct List<T> {
    items: VecDeque<T>,
}

impl<T> Model for List<T> {
    ghost use Rattle.std.specs.Prelude.{List as Items};

    ghost Value = { Items T };

    ghost view = { λ list. list.items.items };
}

impl<T> List<T> {
    ghost use Rattle.world_tables.specs.Lends.{lends_place};

    /// The empty list. It takes no memory.
    pub fn new(alloc: Global) -> Self
        ensures { result ≡ [] }
    {
        List {
            items: VecDeque::new(alloc),
        }
    }

    /// How many items there are.
    pub fn len(&self) -> usize
        ensures { result ≡ length self.now }
    {
        self.items.len()
    }

    /// Whether there is no item.
    pub fn is_empty(&self) -> bool
        ensures { result ≡ (length self.now == 0) }
    {
        self.items.is_empty()
    }

    /// Adds an item at the front. Want of memory hands it back and leaves the list as it was.
    pub fn push_front(&mut self, item: T) -> Result<(), AllocFailed<T>>
        ensures ok { OnOk result (self.new ≡ item ∷ self.old) }
        ensures err { OnErr result (self.new ≡ self.old) }
        ensures item_returned { IfErr result (λ failed. failed.value ≡ item) }
    {
        self.items.push_front(item)
    }

    /// Adds an item at the back. Want of memory hands it back and leaves the list as it was.
    pub fn push_back(&mut self, item: T) -> Result<(), AllocFailed<T>>
        ensures ok { OnOk result (self.new ≡ self.old ++ item ∷ []) }
        ensures err { OnErr result (self.new ≡ self.old) }
        ensures item_returned { IfErr result (λ failed. failed.value ≡ item) }
    {
        self.items.push_back(item)
    }

    /// Takes the item at the front out, if there is one.
    pub fn pop_front(&mut self) -> Option<T>
        ensures value { result ≡ first_of self.old }
        ensures rest { self.new ≡ rest_of self.old }
    {
        self.items.pop_front()
    }

    /// The item at the front, if there is one.
    pub fn front(&self) -> Option<&T>
        ensures { option_copied result ≡ first_of self.now }
    {
        self.items.front()
    }

    /// The item at the front for writing, if there is one.
    pub fn front_mut(&mut self) -> Option<&mut T>
        ensures* writes_back { sem 𝓛 (lends_place T.row self.entry 0 result) }
        ensures value { option_copied_mut result ≡ first_of self.old }
    {
        self.items.front_mut()
    }

    /// The item at a place, counted from 0 at the front, if there is one.
    pub fn get(&self, place: usize) -> Option<&T>
        ensures { option_copied result ≡ slice_get self.now place }
    {
        self.items.get(place)
    }

    /// The item at a place, counted from 0 at the front, or the other one where there is none.
    #[tactic(auto, using(crate::proofs::ListLemmas::none_read))]
    pub fn get_or(&self, place: usize, other: T) -> T
    where
        T: Copy,
        ensures { result ≡ slice_index_or self.now place other }
    {
        match self.items.get(place) {
            Some(item) => *item,
            None => other,
        }
    }

    /// The item at a place for writing, if there is one.
    pub fn get_mut(&mut self, place: usize) -> Option<&mut T>
        ensures* writes_back { sem 𝓛 (lends_place T.row self.entry place result) }
        ensures value { option_copied_mut result ≡ slice_get self.old place }
    {
        self.items.get_mut(place)
    }

    /// Takes the item at a place out, if there is one.
    pub fn remove(&mut self, place: usize) -> Option<T>
        ensures value { result ≡ slice_get self.old place }
        ensures rest { self.new ≡ remove self.old place }
    {
        self.items.remove(place)
    }

    /// Adds an item before the one at this place, or at the back where the place is the length. Want
    /// of memory hands it back and leaves the list as it was.
    pub fn insert(&mut self, place: usize, item: T) -> Result<(), AllocFailed<T>>
        requires { place ≤ length self.old }
        ensures ok { OnOk result (self.new ≡ insert self.old place item) }
        ensures err { OnErr result (self.new ≡ self.old) }
        ensures item_returned { IfErr result (λ failed. failed.value ≡ item) }
    {
        self.items.insert(place, item)
    }

    /// Keeps the items for which the test holds, in order.
    pub fn retain<F: FnMut(&T) -> bool>(&mut self, keep: F)
    where
        T: Drop,
        requires { F.IsAlwaysCallable keep }
        ensures { IsFiltered (CalledAt F.FnMut) keep self.old self.new }
    {
        self.items.retain(keep);
    }

    /// Takes every item out.
    pub fn clear(&mut self)
    where
        T: Drop,
        ensures { self.new ≡ [] }
    {
        self.items.clear();
    }

    /// The items in order, those of the first part before those of the second.
    pub fn as_slices(&self) -> (&[T], &[T])
        ensures { result.0.now ++ result.1.now ≡ self.now }
    {
        self.items.as_slices()
    }

    /// The items in order, from the front.
    pub fn iter(&self) -> Iter<'_, T>
        ensures rest { deque_iter_rest result ≡ self.now }
        ensures runs { YieldsRefsInOrder (deque_iter_steps {X = T}) deque_iter_rest }
    {
        self.items.iter()
    }
}

impl<T: Copy> Clone for List<T> {
    ghost is_clone = { λ list copy. copy ≡ list };

    fn clone(&self) -> Result<Self, AllocError> {
        let mut copy = List::new(*self.items.allocator());
        for item in self.items.iter() {
            copy.push_back(*item)?;
        }
        Ok(copy)
    }
}
