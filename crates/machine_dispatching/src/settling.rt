//! An effect that is over: its lines are put in order, and the ready queues follow them (ISO/IEC
//! 8652:2012, D.2.1).
ghost use Rattle.std.specs.Prelude.{◌≡◌, ◌++◌, OnOk, []};
ghost use Rattle.profile_image.specs.declared.image.Image.{Image};
ghost use Rattle.profile_machine.specs.Steps.{places_after_all};
ghost use Rattle.machine_dispatching.specs.Settling.{written, said_as, Settles};

use crate::order::{are_in_order, in_order};
use crate::queues::places_after;
use ann_base::NoMemory;
use machine_frames::Effect;
use profile_machine::world::{Line, ReadyQueues, Said};
use std::alloc::Global;
use world_tables::List;

// The ready queues follow these lines, which are taken out and owed behind those that are owed already.
fn follow(
    places: &mut ReadyQueues,
    lines: &mut List<Line>,
    ordered: &mut List<Said>,
) -> Result<(), NoMemory>
    ensures places { OnOk result
        ((p : Image) → places.new ≡ places_after_all (said_as p ordered.old) places.old) }
    ensures lines { OnOk result
        ((p : Image) → written p lines.new ≡ written p lines.old ++ said_as p ordered.old) }
    ensures taken_out { OnOk result (ordered.new ≡ []) }
{
    while let Some(said) = ordered.pop_front() {
        places_after(places, &said.line)?;
        lines.push_back(said.line)?;
    }
    Ok(())
}

// The same of an effect that has said something. Lines that stand in order are not put in order anew.
#[tactic(auto, using(crate::proofs::OrderLemmas::kept_in_order))]
#[inline(never)]
fn settle_said(alloc: Global, effect: &mut Effect, lines: &mut List<Line>) -> Result<(), NoMemory>
    ensures settled { OnOk result
        ((p : Image) → Settles p effect.old lines.old effect.new.world lines.new) }
    ensures nothing_said { OnOk result (effect.new.said ≡ []) }
{
    if are_in_order(&effect.said) {
        return follow(&mut effect.world.places, lines, &mut effect.said);
    }
    let mut ordered = in_order(alloc, &mut effect.said)?;
    follow(&mut effect.world.places, lines, &mut ordered)
}

/// An effect is over: its lines are put in order behind those that are there, and the ready queues
/// follow them. What is left is an effect that has said nothing. The clause speaks of the lines as
/// they are written, whatever the names. Most effects say nothing, and there is nothing to do then.
#[inline(always)]
pub fn settle(alloc: Global, effect: &mut Effect, lines: &mut List<Line>) -> Result<(), NoMemory>
    ensures settled { OnOk result
        ((p : Image) → Settles p effect.old lines.old effect.new.world lines.new) }
    ensures nothing_said { OnOk result (effect.new.said ≡ []) }
{
    if effect.said.is_empty() {
        Ok(())
    } else {
        settle_said(alloc, effect, lines)
    }
}
