//! Protected objects and the actions that are open on them (9.4, 9.5.1).
use crate::world::scopes::Located;
use ann_base::{CallNo, Level, ObjectNo};
use profile_image::ProtectedUnitNo;
use rosters::Numbered;
use trace_text::{Mode, Who};
use world_tables::List;

/// An open protected action: whose it is, and whether it reads or writes.
#[derive(Clone, Copy)]
pub struct Action {
    pub who: Who,
    pub mode: Mode,
}

/// A protected object (9.4).
pub struct Object {
    pub number: ObjectNo,
    pub unit: ProtectedUnitNo,
    pub located: Located,
    /// The ceiling priority (D.3).
    pub ceiling: Level,
    /// The actions that are open, the newest first.
    pub actions: List<Action>,
    /// The calls that are queued on each of its entries.
    pub queues: List<List<CallNo>>,
}

// Written out, so that it is proved once, and not by each function that drops one.
impl Drop for Object {
    fn drop(self) {
        let Object {
            number: _,
            unit: _,
            located: _,
            ceiling: _,
            actions: _,
            queues: _,
        } = self;
    }
}

impl Numbered for Object {
    ghost use Rattle.std.specs.Prelude.{false, Some};

    ghost number = { λ x. Some x.number.0 };

    ghost size = { λ x. 0 };

    ghost stirs = { λ x. false };

    fn number(&self) -> Option<u32> {
        Some(self.number.0)
    }

    fn size(&self) -> usize {
        0
    }

    fn stirs(&self) -> bool {
        false
    }
}

/// Whether a protected action may begin (9.5.1, D.3).
#[derive(Clone, Copy)]
pub enum Entering {
    /// The caller has an action open on the object.
    SameObject,
    /// The priority of the caller is above the ceiling.
    AboveCeiling,
    /// Another has an action open that excludes it.
    Held,
    /// The action may begin.
    Inside,
}
