//! Set_Quantum (ISO/IEC 8652:2012, D.2.5).
ghost use Rattle.std.specs.Prelude.{◌≡◌, OnOk};
ghost use Rattle.profile_machine.specs.declared.world.lines.Part.TheVariants.{Own};
ghost use Rattle.profile_machine.specs.Frames.{given};
ghost use Rattle.profile_machine.specs.Priorities.{priority_in_range, quantum_in_range};
ghost use Rattle.profile_machine.specs.Priorities.{quantum_of, set_quantum};
ghost use Rattle.profile_machine.specs.Values.{value, whole_in};
ghost use Rattle.machine_frames.specs.Did.{Did};
ghost use Rattle.machine_priorities.specs.Continued.{quantum_given, ticks_given, quantum_set};

use crate::ranges::priority_in_range;
use ann_base::{Level, Moment, NoMemory, Raised};
use machine_frames::{Effect, goes, raises, refused};
use machine_program::{Program, is_robin_level, next_of, policies};
use machine_values::{moment, seen_by, value, whole_in};
use profile_image::{ExprNo, LAST_QUANTUM, StatementNo, Value};
use profile_machine::world::{Part, World};
use trace_text::Who;

fn quantum_in_range(n: Moment) -> bool
    ensures { result ≡ quantum_in_range n }
{
    1 <= n && n <= LAST_QUANTUM
}

// A quantum of a level, in ticks.
fn quantum_of(p: &Program, level: Level, n: Moment) -> Result<u64, Raised>
    ensures { result ≡ quantum_of p.now level n }
{
    if is_robin_level(p, level) && quantum_in_range(n) {
        Ok(n.unsigned_abs())
    } else {
        Err(Raised::DispatchingPolicy)
    }
}

#[tactic(auto, using(crate::proofs::QuantumLemmas::quantum_laws))]
fn put_quantum(world: &mut World, level: Level, ticks: u64)
    ensures { world.new ≡ quantum_set level ticks world.old }
{
    if let Some(quantum) = world.quanta.get_mut(level as usize) {
        *quantum = ticks;
    }
}

// The quantum is set, where the level is one of round robin and the quantum is in range.
fn ticks_given(
    p: &Program,
    effect: &mut Effect,
    name: Who,
    s: StatementNo,
    level: Level,
    n: Moment,
) -> Result<(), NoMemory>
    ensures { OnOk result (Did (ticks_given p.now name s n level) effect.old effect.new) }
{
    match quantum_of(p, level, n) {
        Ok(ticks) => {
            goes(effect, name, next_of(p, s));
            put_quantum(&mut effect.world, level, ticks);
            Ok(())
        }
        Err(exception) => raises(effect, Part::Own, name, exception),
    }
}

// The level is tested, and then the quantum.
fn level_given(
    p: &Program,
    effect: &mut Effect,
    name: Who,
    s: StatementNo,
    level: Value,
    n: Moment,
) -> Result<(), NoMemory>
    ensures { OnOk result
        (Did
        (given Own name (priority_in_range p.now.policies.last_priority (whole_in level))
        (ticks_given p.now name s n)) effect.old effect.new) }
{
    match priority_in_range(u32::from(policies(p).last_priority), whole_in(level)) {
        Ok(level) => ticks_given(p, effect, name, s, level, n),
        Err(answer) => refused(effect, name, answer),
    }
}

// The quantum is evaluated, and then the level is tested.
fn quantum_given(
    p: &Program,
    effect: &mut Effect,
    name: Who,
    s: StatementNo,
    level: Value,
    quantum: ExprNo,
) -> Result<(), NoMemory>
    ensures { OnOk result (Did (quantum_given p.now name s quantum level) effect.old effect.new) }
{
    let n = moment(&seen_by(p, &effect.world, name), quantum);
    match n {
        Ok(n) => level_given(p, effect, name, s, level, n),
        Err(answer) => refused(effect, name, answer),
    }
}

/// Set_Quantum: the quantum of a level of round robin (D.2.5).
#[tactic(auto, unfolding(profile_machine::specs::Priorities::set_quantum))]
pub fn set_quantum(
    p: &Program,
    effect: &mut Effect,
    name: Who,
    s: StatementNo,
    level: ExprNo,
    quantum: ExprNo,
) -> Result<(), NoMemory>
    ensures { OnOk result (Did (set_quantum p.now name s level quantum) effect.old effect.new) }
{
    let level = value(&seen_by(p, &effect.world, name), level);
    match level {
        Ok(level) => quantum_given(p, effect, name, s, level, quantum),
        Err(answer) => refused(effect, name, answer),
    }
}
