//! The open constructs of a task, the top one first.
ghost use Rattle.std.specs.Prelude.{◌≡◌, ◌==◌, ◌∷◌, [], true, length, IfErr};
ghost use Rattle.std.specs.Prelude.{OnOk, OnErr, slice_get, option_copied};
ghost use Rattle.std.specs.Option.{option_copied_mut};
ghost use Rattle.std.specs.Borrow.{sem};
ghost use Rattle.std.specs.Iterator.Runs.{YieldsRefsInOrder};
ghost use Rattle.std.specs.VecDeque.Iter.{deque_iter_rest, deque_iter_steps};
ghost use Rattle.world_tables.specs.Lists.{first_of, rest_of};
ghost use Rattle.profile_machine.specs.Lends.{lends_frame};
ghost use Rattle.profile_machine.specs.FrameCounts.{with_frame, counts_of};
ghost use Rattle.profile_machine.specs.FrameCounts.{HasRoom, Includes, AreOfRest};
ghost use Rattle.profile_machine.specs.Frames.{defers, any_defers, is_protected, any_protected};
ghost use Rattle.profile_machine.specs.Unwinding.{any_struck};

use crate::world::marks::{Frame, Mark};
use std::alloc::{AllocFailed, Global};
use std::collections::VecDeque;
use std::collections::vec_deque::Iter;
use std::marker::Model;

/// Whether a mark defers abort: a scope while it is being left, a protected action, and the
/// operations of controlled objects (9.8).
pub fn defers(mark: &Mark) -> bool
    ensures { result ≡ defers mark.now }
{
    match mark {
        Mark::Scope(scope) => scope.being_left,
        Mark::Handled(_) => false,
        Mark::InProtected(_) => true,
        Mark::InAccept(_) => false,
        Mark::Abortable(_) => false,
        Mark::InInitialize(_) => true,
        Mark::InFinalize(_) => true,
        Mark::InAssign(_) => true,
    }
}

/// Whether a mark is that of a protected action (9.5.1).
pub fn is_protected(mark: &Mark) -> bool
    ensures { result ≡ is_protected mark.now }
{
    match mark {
        Mark::Scope(_) => false,
        Mark::Handled(_) => false,
        Mark::InProtected(_) => true,
        Mark::InAccept(_) => false,
        Mark::Abortable(_) => false,
        Mark::InInitialize(_) => false,
        Mark::InFinalize(_) => false,
        Mark::InAssign(_) => false,
    }
}

// How many frames are struck, defer abort, and are protected actions.
#[derive(Clone, Copy)]
struct FrameCounts {
    struck: usize,
    deferring: usize,
    in_protected: usize,
}

// The counts of no frame.
fn no_counts() -> FrameCounts
    ensures { result ≡ counts_of [] }
{
    FrameCounts {
        struck: 0,
        deferring: 0,
        in_protected: 0,
    }
}

// The counts with one frame more.
fn with_frame(counts: FrameCounts, frame: &Frame) -> FrameCounts
    requires { HasRoom counts }
    ensures { result ≡ with_frame frame.now counts }
{
    FrameCounts {
        struck: counts.struck + usize::from(frame.struck),
        deferring: counts.deferring + usize::from(defers(&frame.mark)),
        in_protected: counts.in_protected + usize::from(is_protected(&frame.mark)),
    }
}

// The counts with one frame less, which is among those that are counted.
fn without_frame(counts: FrameCounts, frame: &Frame) -> FrameCounts
    requires { Includes counts frame.now }
    ensures { with_frame frame.now result ≡ counts }
{
    FrameCounts {
        struck: counts.struck - usize::from(frame.struck),
        deferring: counts.deferring - usize::from(defers(&frame.mark)),
        in_protected: counts.in_protected - usize::from(is_protected(&frame.mark)),
    }
}

// The counts of all frames.
fn count_all(frames: &VecDeque<Frame>) -> FrameCounts
    ensures { result ≡ counts_of frames.now.items }
{
    let mut counts = no_counts();
    for frame in frames.iter() {
        counts = with_frame(counts, frame);
    }
    counts
}

// The counts of all frames but the top one.
fn count_rest(frames: &VecDeque<Frame>) -> FrameCounts
    ensures { result ≡ counts_of (rest_of frames.now.items) }
{
    let counts = count_all(frames);
    match frames.front() {
        Some(top) => without_frame(counts, top),
        None => counts,
    }
}

// The counts of all frames but the top one, from those before it was pushed, if they are known.
fn count_pushed(frames: &VecDeque<Frame>, before: FrameCounts, counted: bool) -> FrameCounts
    requires { AreOfRest counted before (rest_of frames.now.items) }
    ensures { result ≡ counts_of (rest_of frames.now.items) }
{
    match frames.get(1) {
        Some(second) if counted => with_frame(before, second),
        _ => count_rest(frames),
    }
}

// The counts of all frames but the top one, from those before one on top of it was popped, if they
// are known.
fn count_popped(frames: &VecDeque<Frame>, before: FrameCounts, counted: bool) -> FrameCounts
    requires { counted ≡ true → before ≡ counts_of frames.now.items }
    ensures { result ≡ counts_of (rest_of frames.now.items) }
{
    match frames.front() {
        Some(top) if counted => without_frame(before, top),
        _ => count_rest(frames),
    }
}

// Whether any of these is struck.
fn is_any_struck(frames: &VecDeque<Frame>) -> bool
    ensures { result ≡ any_struck frames.now.items }
{
    frames.iter().any(|frame| frame.struck)
}

// Whether any of these defers abort.
fn does_any_defer(frames: &VecDeque<Frame>) -> bool
    ensures { result ≡ any_defers frames.now.items }
{
    frames.iter().any(|frame| defers(&frame.mark))
}

// Whether any of these is a protected action.
fn is_any_protected(frames: &VecDeque<Frame>) -> bool
    ensures { result ≡ any_protected frames.now.items }
{
    frames.iter().any(|frame| is_protected(&frame.mark))
}

/// The open constructs of a task, or of the agent; contracts see the list, the top one first.
///
/// Each effect asks whether any of them is struck, defers abort or is a protected action, and there
/// may be very many. So those below the top one are counted. The top one is not: it is lent for
/// writing at each step.
#[derive(Drop)]
pub struct FrameStack {
    frames: VecDeque<Frame>,
    below: FrameCounts,
    // Whether the counts are known. They are not once one below the top was lent for writing, which
    // is rare.
    counted: bool,
}

impl Model for FrameStack {
    ghost use Rattle.std.specs.Prelude.{List as Items};
    ghost use Rattle.profile_machine.specs.declared.world.marks.Frame.{Frame};

    ghost Value = { Items Frame };

    ghost use Rattle.profile_machine.specs.FrameCounts.{AreOfRest};

    ghost view = { λ stack. stack.frames.items };

    ghost invariant = { λ stack. AreOfRest stack.counted stack.below stack.frames.items };
}

impl FrameStack {
    /// Nothing is open. It takes no memory.
    pub fn new(alloc: Global) -> Self
        ensures { result ≡ [] }
    {
        FrameStack {
            frames: VecDeque::new(alloc),
            below: no_counts(),
            counted: true,
        }
    }

    /// How many constructs are open.
    pub fn len(&self) -> usize
        ensures { result ≡ length self.now }
    {
        self.frames.len()
    }

    /// Whether nothing is open.
    pub fn is_empty(&self) -> bool
        ensures { result ≡ (length self.now == 0) }
    {
        self.frames.is_empty()
    }

    /// Opens a construct on top. Want of memory hands it back and leaves the stack as it was.
    pub fn push_front(&mut self, frame: Frame) -> Result<(), AllocFailed<Frame>>
        ensures ok { OnOk result (self.new ≡ frame ∷ self.old) }
        ensures err { OnErr result (self.new ≡ self.old) }
        ensures item_returned { IfErr result (λ failed. failed.value ≡ frame) }
    {
        self.frames.push_front(frame)?;
        self.below = count_pushed(&self.frames, self.below, self.counted);
        self.counted = true;
        Ok(())
    }

    /// Takes the top one out, if there is one.
    pub fn pop_front(&mut self) -> Option<Frame>
        ensures value { result ≡ first_of self.old }
        ensures rest { self.new ≡ rest_of self.old }
    {
        let popped = self.frames.pop_front();
        self.below = count_popped(&self.frames, self.below, self.counted);
        self.counted = true;
        popped
    }

    /// The top one, if there is one.
    pub fn front(&self) -> Option<&Frame>
        ensures { option_copied result ≡ first_of self.now }
    {
        self.frames.front()
    }

    /// The top one for writing, if there is one.
    pub fn front_mut(&mut self) -> Option<&mut Frame>
        ensures* writes_back { sem 𝓛 (lends_frame self.entry 0 result) }
        ensures value { option_copied_mut result ≡ first_of self.old }
    {
        self.frames.front_mut()
    }

    /// The one at a place, counted from 0 at the top, if there is one.
    pub fn get(&self, place: usize) -> Option<&Frame>
        ensures { option_copied result ≡ slice_get self.now place }
    {
        self.frames.get(place)
    }

    /// The one at a place for writing, if there is one.
    pub fn get_mut(&mut self, place: usize) -> Option<&mut Frame>
        ensures* writes_back { sem 𝓛 (lends_frame self.entry place result) }
        ensures value { option_copied_mut result ≡ slice_get self.old place }
    {
        // What is written below the top is not seen, so the counts are known no longer.
        self.counted = self.counted && place == 0;
        self.frames.get_mut(place)
    }

    /// Whether any of them is struck by an abort or a trigger (9.8).
    pub fn any_struck(&self) -> bool
        ensures { result ≡ any_struck self.now }
    {
        match self.front() {
            Some(top) if self.counted => top.struck || 0 < self.below.struck,
            _ => is_any_struck(&self.frames),
        }
    }

    /// Whether any of them defers abort (9.8).
    pub fn any_defers(&self) -> bool
        ensures { result ≡ any_defers self.now }
    {
        match self.front() {
            Some(top) if self.counted => defers(&top.mark) || 0 < self.below.deferring,
            _ => does_any_defer(&self.frames),
        }
    }

    /// Whether any of them is a protected action (9.5.1).
    pub fn any_protected(&self) -> bool
        ensures { result ≡ any_protected self.now }
    {
        match self.front() {
            Some(top) if self.counted => is_protected(&top.mark) || 0 < self.below.in_protected,
            _ => is_any_protected(&self.frames),
        }
    }

    /// The open constructs in order, the top one first.
    pub fn iter(&self) -> Iter<'_, Frame>
        ensures rest { deque_iter_rest result ≡ self.now }
        ensures runs { YieldsRefsInOrder (deque_iter_steps {X = Frame}) deque_iter_rest }
    {
        self.frames.iter()
    }
}
