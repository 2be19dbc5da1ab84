//! What an expression sees.
ghost use Rattle.std.specs.Prelude.{◌≡◌};
ghost use Rattle.profile_machine.specs.Values.{seen_by};

use ann_base::ObjectNo;
use machine_program::Program;
use machine_scopes::innermost;
use profile_machine::world::{ScopeId, World};
use std::marker::Model;
use trace_text::Who;

/// What an expression sees: the program, the world, who evaluates it, the scope in use round it,
/// and for a barrier the object of which it is one.
#[derive(Drop)]
pub struct Seen<'a> {
    pub program: &'a Program,
    pub world: &'a World,
    pub who: Who,
    pub within: Option<ScopeId>,
    pub object: Option<ObjectNo>,
}

impl<'a> Model for Seen<'a> {
    ghost use Rattle.profile_machine.specs.Values.{Seen as WhatIsSeen};
    ghost use Rattle.machine_values.specs.Sights.{sight_of};

    ghost Value = { WhatIsSeen };

    ghost view = { λ seen.
        sight_of seen.program.now seen.world.now seen.who seen.within seen.object };
}

/// As somebody sees it at the first item of the own rest.
pub fn seen_by<'a>(program: &'a Program, world: &'a World, name: Who) -> Seen<'a>
    ensures { result ≡ seen_by program.now world.now name }
{
    Seen {
        program,
        world,
        who: name,
        within: innermost(world, name),
        object: None,
    }
}
