//! Items that are found by a number of their own: tasks, scopes in use, protected objects and entry
//! calls.
ghost use Rattle.std.specs.Prelude.{◌≡◌, ◌++◌, ◌∷◌, [], length, leb, sum_by, not};
ghost use Rattle.std.specs.Prelude.{IfErr, OnOk, OnErr, slice_get, find, option_copied};
ghost use Rattle.std.specs.List.{list_any, position_from};
ghost use Rattle.std.specs.Option.{option_copied_mut};
ghost use Rattle.std.specs.Borrow.{sem};
ghost use Rattle.std.specs.Iterator.Runs.{YieldsRefsInOrder};
ghost use Rattle.std.specs.Fn.{CalledAt};
ghost use Rattle.std.specs.List.Retain.{IsFiltered};
ghost use Rattle.std.specs.VecDeque.Iter.{deque_iter_rest, deque_iter_steps};
ghost use Rattle.profile_image.specs.Words.{without};
ghost use Rattle.rosters.specs.Numbered.{has_number};

use crate::roster_notes::{
    Notes, counted, fits, forget, found, is_calm, joined_at_back, joined_in_front, lend, no_notes,
    place_of,
};
use std::alloc::{AllocFailed, Global};
use std::collections::VecDeque;
use std::collections::vec_deque::Iter;
use std::marker::Model;

/// What a roster keeps: an item with a number that tells it from the others of its kind.
pub trait Numbered {
    ghost use Rattle.std.specs.Prelude.{ℕ, Bool, Option, ◌≡◌};

    /// The number; an item without one is found by none.
    ghost number: { Self → Option ℕ };

    /// What it takes of the room that all items of its kind share: the marks of a task, the cells
    /// of a scope.
    ghost size: { Self → ℕ };

    /// Whether something may have to be done for it when an effect is over.
    ghost stirs: { Self → Bool };

    fn number(&self) -> Option<u32>
        ensures { result ≡ number self.now };

    fn size(&self) -> usize
        ensures { result ≡ size self.now };

    fn stirs(&self) -> bool
        ensures { result ≡ stirs self.now };
}

/// Items in the order in which they stand; contracts see the list itself, its front the head.
#[derive(Drop)]
pub struct Roster<T: Numbered> {
    items: VecDeque<T>,
    notes: Notes,
}

impl<T: Numbered> Model for Roster<T> {
    ghost use Rattle.std.specs.Prelude.{List as Items};

    ghost Value = { Items T };

    ghost use Rattle.rosters.specs.RosterNotes.{AreRight};

    ghost view = { λ roster. roster.items.items };

    ghost invariant = { λ roster. AreRight T.Numbered roster.items.items roster.notes };
}

impl<T: Numbered> Roster<T> {
    ghost use Rattle.rosters.specs.Lends.{lends_item};

    /// The empty roster. It takes no memory.
    pub fn new(alloc: Global) -> Self
        ensures { result ≡ [] }
    {
        Roster {
            items: VecDeque::new(alloc),
            notes: no_notes(),
        }
    }

    /// How many items there are.
    pub fn len(&self) -> usize
        ensures { result ≡ length self.now }
    {
        self.items.len()
    }

    /// Adds an item at the front. Want of memory hands it back and leaves the roster as it was.
    pub fn push_front(&mut self, item: T) -> Result<(), AllocFailed<T>>
        ensures ok { OnOk result (self.new ≡ item ∷ self.old) }
        ensures err { OnErr result (self.new ≡ self.old) }
        ensures item_returned { IfErr result (λ failed. failed.value ≡ item) }
    {
        let grown = joined_in_front(&self.items, &self.notes, &item);
        self.items.push_front(item)?;
        self.notes = grown;
        Ok(())
    }

    /// Adds an item at the back. Want of memory hands it back and leaves the roster as it was.
    pub fn push_back(&mut self, item: T) -> Result<(), AllocFailed<T>>
        ensures ok { OnOk result (self.new ≡ self.old ++ item ∷ []) }
        ensures err { OnErr result (self.new ≡ self.old) }
        ensures item_returned { IfErr result (λ failed. failed.value ≡ item) }
    {
        let grown = joined_at_back(&self.items, &self.notes, &item);
        self.items.push_back(item)?;
        self.notes = grown;
        Ok(())
    }

    /// Where the first item with this number stands, counted from 0 at the front.
    #[inline(always)]
    pub fn place_of(&self, number: u32) -> Option<usize>
        ensures { result ≡ position_from (λ x. has_number number (T.number x)) 0 self.now }
    {
        place_of(&self.items, &self.notes, number)
    }

    /// The item at a place, if there is one.
    pub fn get(&self, place: usize) -> Option<&T>
        ensures { option_copied result ≡ slice_get self.now place }
    {
        self.items.get(place)
    }

    /// The item at a place for writing, if there is one.
    #[inline(always)]
    pub fn get_mut(&mut self, place: usize) -> Option<&mut T>
        ensures* writes_back { sem 𝓛 (lends_item T.row T.Numbered self.entry place result) }
        ensures value { option_copied_mut result ≡ slice_get self.old place }
    {
        lend(&self.items, &mut self.notes, place);
        self.items.get_mut(place)
    }

    /// The first item with this number, if it is there.
    #[inline(always)]
    pub fn find(&self, number: u32) -> Option<&T>
        ensures { option_copied result ≡ find (λ x. has_number number (T.number x)) self.now }
    {
        found(&self.items, &self.notes, number)
    }

    /// Keeps the items for which the test holds, in order.
    pub fn retain<F: FnMut(&T) -> bool>(&mut self, keep: F)
    where
        T: Drop,
        requires { F.IsAlwaysCallable keep }
        ensures { IsFiltered (CalledAt F.FnMut) keep self.old self.new }
    {
        self.items.retain(keep);
        self.notes = counted(&self.items);
    }

    /// No item with this number is left. If the numbers are in order, it is found and taken out
    /// without a walk.
    pub fn forget(&mut self, number: u32)
    where
        T: Drop,
        ensures { self.new ≡ without (λ x. has_number number (T.number x)) self.old }
    {
        forget(&mut self.items, &mut self.notes, number);
    }

    /// Whether all items together take no more than this room.
    pub fn fits(&self, room: usize) -> bool
        ensures { result ≡ leb (sum_by T.size self.now) room }
    {
        fits(&self.items, &self.notes, room)
    }

    /// Whether nothing has to be done for any item when an effect is over.
    pub fn is_calm(&self) -> bool
        ensures { result ≡ not (list_any T.stirs self.now) }
    {
        is_calm(&self.items, &self.notes)
    }

    /// The items in order, from the front.
    pub fn iter(&self) -> Iter<'_, T>
        ensures rest { deque_iter_rest result ≡ self.now }
        ensures runs { YieldsRefsInOrder (deque_iter_steps {X = T}) deque_iter_rest }
    {
        self.items.iter()
    }
}
