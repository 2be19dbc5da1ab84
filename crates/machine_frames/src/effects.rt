//! An effect under way.
use profile_machine::world::{Said, World};
use world_tables::List;

/// An effect under way: the world by now, and what the effect has said.
pub struct Effect {
    pub world: World,
    pub said: List<Said>,
}

// Written out, so that it is proved once, and not by each function that drops one.
impl Drop for Effect {
    fn drop(self) {
        let Effect { world: _, said: _ } = self;
    }
}
