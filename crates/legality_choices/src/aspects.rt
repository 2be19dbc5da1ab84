//! What is found in aspects (ISO/IEC 8652:2012, 13.1.1, C.3.1, D.1, D.2.6, D.3, D.16).
ghost use Rattle.std.specs.Prelude.{◌≡◌, ◌++◌, ◌∷◌, ◌≤◌, [], OnOk, cond};
ghost use Rattle.std.specs.Prelude.{length, option_map, take, unwrap_or};
ghost use Rattle.ada_legality.specs.Aspects.{asks_cpu, asks_priority, attached_as, has_point};
ghost use Rattle.ada_legality.specs.Aspects.{wrong_priority, wrong_cpu, is_span_or_refused};
ghost use Rattle.ada_legality.specs.Aspects.{is_deadline, wrong_deadline, wrong_interrupt};
ghost use Rattle.ada_legality.specs.Aspects.{priority_judged, attachment_noted};
ghost use Rattle.ada_legality.specs.Aspects.{interrupt_judged, aspect_judged, aspects_from};
ghost use Rattle.legality_choices.specs.OneByOne.{aspects_along};

use crate::lies_between;
use crate::owners::{
    asks_cpu, asks_priority, attaches_again, attaches_to, is_attach_name, is_cpu_name,
    is_deadline_name, is_priority_name, is_task_owner, may_have_aspect,
};
use crate::priorities::{
    is_priority_value, stands_before_cpu, stands_before_deadline, stands_before_priority,
};
use ada_legality::{AspectOwner, AspectPart, Attached, Finding, Rule, Typed};
use ada_regions::AdaType;
use ann_base::{NoMemory, Place};
use legality_types::{broken_if, broken_unless, fits, has_type, is_pointed, note};
use profile_image::LAST_OUTSIDE_LINE;
use world_tables::List;

/// A number with a point breaks the rule on literals alone.
fn has_point(aspect: &AspectPart) -> bool
    ensures { result ≡ has_point aspect.now }
{
    match aspect.typed {
        None => false,
        Some(typed) => is_pointed(typed),
    }
}

/// A priority that is not static, not in its subtype, or the second.
#[tactic(auto, unfolding(ada_legality::specs::Aspects::wrong_priority))]
fn wrong_priority(
    found: &mut List<Finding>,
    last: u8,
    is_second: bool,
    aspect: &AspectPart,
) -> Result<(), NoMemory>
    ensures { OnOk result (found.new ≡ found.old ++ wrong_priority last is_second aspect.now) }
{
    let broken = is_priority_name(aspect.name)
        && (!has_point(aspect)
            && (!is_priority_value(last, aspect.name, aspect.number) || is_second));
    broken_if(found, Rule::PriorityAspect, broken, aspect.place)
}

/// CPU is 0 or 1.
#[tactic(auto, unfolding(ada_legality::specs::Aspects::wrong_cpu))]
fn wrong_cpu(
    found: &mut List<Finding>,
    is_second: bool,
    aspect: &AspectPart,
) -> Result<(), NoMemory>
    ensures { OnOk result (found.new ≡ found.old ++ wrong_cpu is_second aspect.now) }
{
    let broken = is_cpu_name(aspect.name)
        && (!has_point(aspect) && (!lies_between(0, 1, aspect.number) || is_second));
    broken_if(found, Rule::CpuAspect, broken, aspect.place)
}

/// A Time_Span, or no type.
fn is_span_or_refused(typed: Typed) -> bool
    ensures { result ≡ is_span_or_refused typed }
{
    !has_type(typed) || (is_pointed(typed) || fits(typed, AdaType::TimeSpan))
}

/// The value of a relative deadline.
fn is_deadline(aspect: &AspectPart) -> bool
    ensures { result ≡ is_deadline aspect.now }
{
    match aspect.typed {
        None => false,
        Some(typed) => is_span_or_refused(typed),
    }
}

/// A relative deadline on something else than a task, of another type, or the second.
#[tactic(auto, unfolding(ada_legality::specs::Aspects::wrong_deadline))]
fn wrong_deadline(
    found: &mut List<Finding>,
    of_task: bool,
    is_second: bool,
    aspect: &AspectPart,
) -> Result<(), NoMemory>
    ensures { OnOk result (found.new ≡ found.old ++ wrong_deadline of_task is_second aspect.now) }
{
    let broken = is_deadline_name(aspect.name) && !(of_task && (is_deadline(aspect) && !is_second));
    broken_if(found, Rule::RelativeDeadlineAspect, broken, aspect.place)
}

/// An interrupt that is not static or not there.
#[tactic(auto, unfolding(ada_legality::specs::Aspects::wrong_interrupt))]
fn wrong_interrupt(found: &mut List<Finding>, aspect: &AspectPart) -> Result<(), NoMemory>
    ensures { OnOk result (found.new ≡ found.old ++ wrong_interrupt aspect.now) }
{
    let broken = is_attach_name(aspect.name)
        && (!has_point(aspect) && !lies_between(0, i64::from(LAST_OUTSIDE_LINE), aspect.number));
    broken_if(found, Rule::AttachedInterrupt, broken, aspect.place)
}

/// A priority, of what may have one.
fn priority_if(
    found: &mut List<Finding>,
    last: u8,
    owner: AspectOwner,
    is_second: bool,
    aspect: &AspectPart,
) -> Result<(), NoMemory>
    ensures { OnOk result
        (found.new
        ≡ found.old ++ cond (asks_priority owner) (wrong_priority last is_second aspect.now) []) }
{
    if asks_priority(owner) {
        wrong_priority(found, last, is_second, aspect)
    } else {
        Ok(())
    }
}

/// CPU, of what may have it.
fn cpu_if(
    found: &mut List<Finding>,
    owner: AspectOwner,
    is_second: bool,
    aspect: &AspectPart,
) -> Result<(), NoMemory>
    ensures { OnOk result
        (found.new ≡ found.old ++ cond (asks_cpu owner) (wrong_cpu is_second aspect.now) []) }
{
    if asks_cpu(owner) {
        wrong_cpu(found, is_second, aspect)
    } else {
        Ok(())
    }
}

/// Priorities and CPU, of what may have them.
#[tactic(auto, unfolding(ada_legality::specs::Aspects::priority_judged))]
fn priority_judged(
    found: &mut List<Finding>,
    last: u8,
    owner: AspectOwner,
    before: &[AspectPart],
    aspect: &AspectPart,
) -> Result<(), NoMemory>
    ensures { OnOk result
        (found.new ≡ found.old ++ priority_judged last owner before.now aspect.now) }
{
    priority_if(found, last, owner, stands_before_priority(before), aspect)?;
    cpu_if(found, owner, stands_before_cpu(before), aspect)
}

/// A handler that is attached to a unit.
fn attached_to(
    found: &mut List<Finding>,
    place: Place,
    aspect: &AspectPart,
    unit: Option<u32>,
) -> Result<(), NoMemory>
    ensures { OnOk result
        (found.new
        ≡ found.old ++ unwrap_or (option_map (λ u. attached_as place aspect.now u ∷ []) unit) []) }
{
    match unit {
        None => Ok(()),
        Some(unit) => note(
            found,
            Finding::Attached(Attached {
                unit,
                procedure: place,
                aspect: aspect.place,
                number: aspect.number,
            }),
        ),
    }
}

/// A handler that is attached, where it may be.
#[tactic(auto, unfolding(ada_legality::specs::Aspects::attachment_noted))]
fn attachment_noted(
    found: &mut List<Finding>,
    owner: AspectOwner,
    place: Place,
    aspect: &AspectPart,
) -> Result<(), NoMemory>
    ensures { OnOk result (found.new ≡ found.old ++ attachment_noted owner place aspect.now) }
{
    if is_attach_name(aspect.name) {
        attached_to(found, place, aspect, attaches_to(owner))
    } else {
        Ok(())
    }
}

/// An interrupt that is attached, or attached again.
#[tactic(auto, unfolding(ada_legality::specs::Aspects::interrupt_judged))]
fn interrupt_judged(
    found: &mut List<Finding>,
    owner: AspectOwner,
    place: Place,
    aspect: &AspectPart,
) -> Result<(), NoMemory>
    ensures { OnOk result (found.new ≡ found.old ++ interrupt_judged owner place aspect.now) }
{
    wrong_interrupt(found, aspect)?;
    let broken = is_attach_name(aspect.name) && attaches_again(owner);
    broken_if(found, Rule::AttachedInterrupt, broken, aspect.place)?;
    attachment_noted(found, owner, place, aspect)
}

/// An aspect, behind those before it.
#[tactic(auto, unfolding(ada_legality::specs::Aspects::aspect_judged))]
fn aspect_judged(
    found: &mut List<Finding>,
    last: u8,
    owner: AspectOwner,
    place: Place,
    before: &[AspectPart],
    aspect: &AspectPart,
) -> Result<(), NoMemory>
    ensures { OnOk result
        (found.new ≡ found.old ++ aspect_judged last owner place before.now aspect.now) }
{
    let kept = may_have_aspect(owner, aspect.name);
    broken_unless(found, Rule::KindOfName, kept, aspect.place)?;
    priority_judged(found, last, owner, before, aspect)?;
    let is_second = stands_before_deadline(before);
    wrong_deadline(found, is_task_owner(owner), is_second, aspect)?;
    interrupt_judged(found, owner, place, aspect)
}

/// The aspects before a place.
fn before_place(aspects: &[AspectPart], place: usize) -> &[AspectPart]
    requires { place ≤ length aspects.now }
    ensures { result.now ≡ take place aspects.now }
{
    aspects.split_at(place).0
}

/// Aspects behind those before them, one at a time.
fn aspects_along(
    found: &mut List<Finding>,
    last: u8,
    owner: AspectOwner,
    begins: Place,
    aspects: &[AspectPart],
) -> Result<(), NoMemory>
    ensures { OnOk result
        (found.new ≡ found.old ++ aspects_along last owner begins aspects.now 0 aspects.now) }
{
    let mut at = 0;
    for aspect in aspects {
        let before = before_place(aspects, at);
        aspect_judged(found, last, owner, begins, before, aspect)?;
        at += 1;
    }
    Ok(())
}

/// All aspects of a construct that begins here.
#[tactic(auto, using(crate::proofs::OneAtATime::aspects_are))]
pub fn aspects_from(
    found: &mut List<Finding>,
    last: u8,
    owner: AspectOwner,
    begins: Place,
    aspects: &[AspectPart],
) -> Result<(), NoMemory>
    ensures { OnOk result
        (found.new ≡ found.old ++ aspects_from last owner begins aspects.now 0 aspects.now) }
{
    aspects_along(found, last, owner, begins, aspects)
}
