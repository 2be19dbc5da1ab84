//! The formals of what is called (ISO/IEC 8652:2012, 6.1, 9.5.2, annex D).
ghost use Rattle.std.specs.Prelude.{◌≡◌, ◌++◌, ◌∷◌, [], IfOk, OnOk, Some, codes, cond, false, map};
ghost use Rattle.ada_regions.specs.declared.types.AdaType.TheVariants as types;
ghost use Rattle.ada_regions.specs.declared.types.Mode.TheVariants as mode;
ghost use Rattle.ada_legality.specs.declared.parts.Wanted.TheVariants as wanting;
ghost use Rattle.ada_legality.specs.Calls.{moment_name, wanted_subtype, formal_part};
ghost use Rattle.ada_legality.specs.Calls.{formals_of_kind, without_name, formals_of_item};
ghost use Rattle.ada_legality.specs.Calls.{formals_denoted, formals_of_operation};

use crate::moments::{moment_is_span, moment_name};
use ada_entities::copy;
use ada_legality::{ActualPart, FormalPart, Known, Wanted};
use ada_regions::{AdaType, Denoted, EntityKind, Formal, Mode, Operation, Subtype};
use ann_base::NoMemory;
use legality_entities::{denoted_kind, operation_of};
use profile_image::ImageList;
use std::alloc::Global;

fn wanted_subtype(subtype: Option<Subtype>) -> Wanted
    ensures { result ≡ wanted_subtype subtype }
{
    match subtype {
        None => Wanted::OfType(None),
        Some(subtype) => Wanted::OfType(Some(subtype.of_type)),
    }
}

/// A formal of the source.
fn formal_part(alloc: Global, formal: &Formal) -> Result<FormalPart, NoMemory>
    ensures { IfOk result (λ part. part ≡ formal_part formal.now) }
{
    Ok(FormalPart {
        name: copy(alloc, formal.name.as_slice())?,
        mode: formal.mode,
        wanted: wanted_subtype(formal.subtype),
        may_be_omitted: false,
    })
}

/// The formals of a subprogram or an entry of the source.
fn formal_parts(alloc: Global, formals: &[Formal]) -> Result<ImageList<FormalPart>, NoMemory>
    ensures { IfOk result (λ parts. parts ≡ map formal_part formals.now) }
{
    let mut parts = ImageList::new(alloc);
    for formal in formals {
        parts.push(formal_part(alloc, formal)?)?;
    }
    Ok(parts)
}

/// The formals of an entity.
#[tactic(auto, unfolding(ada_legality::specs::Calls::formals_of_kind))]
fn formals_of_kind(alloc: Global, kind: &EntityKind) -> Result<ImageList<FormalPart>, NoMemory>
    ensures { IfOk result (λ parts. parts ≡ formals_of_kind kind.now) }
{
    match kind {
        EntityKind::Subprogram { formals, .. } => formal_parts(alloc, formals.as_slice()),
        EntityKind::Entry { formals, .. } => formal_parts(alloc, formals.as_slice()),
        _ => Ok(ImageList::new(alloc)),
    }
}

/// An index and the argument of Image have no name.
pub fn without_name(alloc: Global, t: Option<AdaType>) -> Result<ImageList<FormalPart>, NoMemory>
    ensures { IfOk result (λ parts. parts ≡ without_name t) }
{
    let mut parts = ImageList::new(alloc);
    parts.push(FormalPart {
        name: ImageList::new(alloc),
        mode: Mode::In,
        wanted: Wanted::OfType(t),
        may_be_omitted: false,
    })?;
    Ok(parts)
}

/// A mode and what is wanted.
#[derive(Clone, Copy)]
struct Part {
    mode: Mode,
    wanted: Wanted,
}

fn input_of(t: Option<AdaType>) -> Part
    ensures { result ≡ record { mode = mode.In; wanted = wanting.OfType t } }
{
    Part {
        mode: Mode::In,
        wanted: Wanted::OfType(t),
    }
}

fn output(t: AdaType) -> Part
    ensures { result ≡ record { mode = mode.Out; wanted = wanting.OfType (Some t) } }
{
    Part {
        mode: Mode::Out,
        wanted: Wanted::OfType(Some(t)),
    }
}

fn changed(t: AdaType) -> Part
    ensures { result ≡ record { mode = mode.InOut; wanted = wanting.OfType (Some t) } }
{
    Part {
        mode: Mode::InOut,
        wanted: Wanted::OfType(Some(t)),
    }
}

fn handler_for(t: AdaType) -> Part
    ensures { result ≡ record { mode = mode.In; wanted = wanting.HandlerOf t } }
{
    Part {
        mode: Mode::In,
        wanted: Wanted::HandlerOf(t),
    }
}

/// One more formal.
fn with_formal(
    alloc: Global,
    parts: &mut ImageList<FormalPart>,
    name: &[u8],
    part: Part,
    may_be_omitted: bool,
) -> Result<(), NoMemory>
    ensures { OnOk result
        (parts.new
        ≡ parts.old
        ++ record
        { name = name.now; mode = part.mode; wanted = part.wanted; may_be_omitted = may_be_omitted }
        ∷ []) }
{
    parts.push(FormalPart {
        name: copy(alloc, name)?,
        mode: part.mode,
        wanted: part.wanted,
        may_be_omitted,
    })?;
    Ok(())
}

/// No formal.
fn none(alloc: Global) -> Result<ImageList<FormalPart>, NoMemory>
    ensures { IfOk result (λ parts. parts ≡ []) }
{
    Ok(ImageList::new(alloc))
}

/// One formal.
fn one(
    alloc: Global,
    name: &[u8],
    part: Part,
    may_be_omitted: bool,
) -> Result<ImageList<FormalPart>, NoMemory>
    ensures { IfOk result
        (λ parts.
        parts
        ≡ record
        { name = name.now; mode = part.mode; wanted = part.wanted; may_be_omitted = may_be_omitted }
        ∷ []) }
{
    let mut parts = ImageList::new(alloc);
    with_formal(alloc, &mut parts, name, part, may_be_omitted)?;
    Ok(parts)
}

/// Two formals.
fn two(
    alloc: Global,
    first: &[u8],
    first_part: Part,
    second: &[u8],
    second_part: Part,
    may_be_omitted: bool,
) -> Result<ImageList<FormalPart>, NoMemory>
    ensures { IfOk result
        (λ parts.
        parts
        ≡ record {
          name = first.now;
          mode = first_part.mode;
          wanted = first_part.wanted;
          may_be_omitted = false;
        }
        ∷ record {
          name = second.now;
          mode = second_part.mode;
          wanted = second_part.wanted;
          may_be_omitted = may_be_omitted;
        } ∷ []) }
{
    let mut parts = ImageList::new(alloc);
    with_formal(alloc, &mut parts, first, first_part, false)?;
    with_formal(alloc, &mut parts, second, second_part, may_be_omitted)?;
    Ok(parts)
}

/// The type of the moment of a Set_Handler.
fn moment_type(is_span: bool, moment: AdaType) -> AdaType
    ensures { result ≡ cond is_span types.TimeSpan moment }
{
    if is_span { AdaType::TimeSpan } else { moment }
}

/// The formals of Set_Handler: of an event or a timer, with a moment of this type (D.14.1, D.15).
fn set_handler(
    alloc: Global,
    name: &[u8],
    of_type: AdaType,
    is_span: bool,
    moment: AdaType,
) -> Result<ImageList<FormalPart>, NoMemory>
    ensures { IfOk result
        (λ parts.
        parts
        ≡ record {
          name = name.now;
          mode = mode.InOut;
          wanted = wanting.OfType (Some of_type);
          may_be_omitted = false;
        }
        ∷ record {
          name = moment_name is_span;
          mode = mode.In;
          wanted = wanting.OfType
              (Some (cond is_span types.TimeSpan moment));
          may_be_omitted = false;
        }
        ∷ record {
          name = codes "handler";
          mode = mode.In;
          wanted = wanting.HandlerOf of_type;
          may_be_omitted = false;
        } ∷ []) }
{
    let mut parts = ImageList::new(alloc);
    with_formal(alloc, &mut parts, name, changed(of_type), false)?;
    let second = input_of(Some(moment_type(is_span, moment)));
    with_formal(alloc, &mut parts, moment_name(is_span), second, false)?;
    with_formal(alloc, &mut parts, b"handler", handler_for(of_type), false)?;
    Ok(parts)
}

/// The formals of a predefined subprogram.
#[tactic(auto, unfolding(ada_legality::specs::Calls::formals_of_operation, ada_legality::specs::Calls::named_parts, ada_legality::specs::Calls::formal_names, ada_legality::specs::Calls::parts_of_operation))]
fn formals_of_operation(
    alloc: Global,
    operation: Operation,
    is_span: bool,
) -> Result<ImageList<FormalPart>, NoMemory>
    ensures { IfOk result (λ parts. parts ≡ formals_of_operation operation is_span) }
{
    match operation {
        Operation::PutLine => one(alloc, b"item", input_of(None), false),
        Operation::Clock => none(alloc),
        Operation::Microseconds => one(alloc, b"us", input_of(Some(AdaType::Integer)), false),
        Operation::Milliseconds => one(alloc, b"ms", input_of(Some(AdaType::Integer)), false),
        Operation::Seconds => one(alloc, b"s", input_of(Some(AdaType::Integer)), false),
        Operation::Minutes => one(alloc, b"m", input_of(Some(AdaType::Integer)), false),
        Operation::ToDuration => one(alloc, b"ts", input_of(Some(AdaType::TimeSpan)), false),
        Operation::ToTimeSpan => one(alloc, b"d", input_of(Some(AdaType::Duration)), false),
        Operation::SetEvent => set_handler(
            alloc,
            b"event",
            AdaType::TimingEvent,
            is_span,
            AdaType::Time,
        ),
        Operation::CancelEvent => two(
            alloc,
            b"event",
            changed(AdaType::TimingEvent),
            b"cancelled",
            output(AdaType::Boolean),
            false,
        ),
        Operation::TimeOfEvent => one(alloc, b"event", input_of(Some(AdaType::TimingEvent)), false),
        Operation::ExecutionClock => one(alloc, b"t", input_of(Some(AdaType::TaskId)), true),
        Operation::SetTimer => set_handler(alloc, b"tm", AdaType::Timer, is_span, AdaType::CpuTime),
        Operation::CancelTimer => two(
            alloc,
            b"tm",
            changed(AdaType::Timer),
            b"cancelled",
            output(AdaType::Boolean),
            false,
        ),
        Operation::TimeRemaining => one(alloc, b"tm", input_of(Some(AdaType::Timer)), false),
        Operation::AddTask => two(
            alloc,
            b"gb",
            changed(AdaType::GroupBudget),
            b"t",
            input_of(Some(AdaType::TaskId)),
            false,
        ),
        Operation::RemoveTask => two(
            alloc,
            b"gb",
            changed(AdaType::GroupBudget),
            b"t",
            input_of(Some(AdaType::TaskId)),
            false,
        ),
        Operation::Replenish => two(
            alloc,
            b"gb",
            changed(AdaType::GroupBudget),
            b"to",
            input_of(Some(AdaType::TimeSpan)),
            false,
        ),
        Operation::Add => two(
            alloc,
            b"gb",
            changed(AdaType::GroupBudget),
            b"interval",
            input_of(Some(AdaType::TimeSpan)),
            false,
        ),
        Operation::BudgetHasExpired => one(
            alloc,
            b"gb",
            input_of(Some(AdaType::GroupBudget)),
            false,
        ),
        Operation::BudgetRemaining => one(
            alloc,
            b"gb",
            input_of(Some(AdaType::GroupBudget)),
            false,
        ),
        Operation::SetBudget => two(
            alloc,
            b"gb",
            changed(AdaType::GroupBudget),
            b"handler",
            handler_for(AdaType::GroupBudget),
            false,
        ),
        Operation::CancelBudget => two(
            alloc,
            b"gb",
            changed(AdaType::GroupBudget),
            b"cancelled",
            output(AdaType::Boolean),
            false,
        ),
        Operation::SetPriority => two(
            alloc,
            b"priority",
            input_of(Some(AdaType::Integer)),
            b"t",
            input_of(Some(AdaType::TaskId)),
            true,
        ),
        Operation::GetPriority => one(alloc, b"t", input_of(Some(AdaType::TaskId)), true),
        Operation::CurrentTask => none(alloc),
        Operation::SetQuantum => two(
            alloc,
            b"pri",
            input_of(Some(AdaType::Integer)),
            b"quantum",
            input_of(Some(AdaType::TimeSpan)),
            false,
        ),
        Operation::SetDeadline => two(
            alloc,
            b"d",
            input_of(Some(AdaType::Time)),
            b"t",
            input_of(Some(AdaType::TaskId)),
            true,
        ),
        Operation::GetDeadline => one(alloc, b"t", input_of(Some(AdaType::TaskId)), true),
        Operation::DelayUntilAndSetDeadline => two(
            alloc,
            b"delay_until_time",
            input_of(Some(AdaType::Time)),
            b"deadline_offset",
            input_of(Some(AdaType::TimeSpan)),
            false,
        ),
        Operation::PortValue => one(alloc, b"n", input_of(Some(AdaType::Integer)), false),
    }
}

/// The formals of a predefined item, where it is a subprogram.
#[tactic(auto, unfolding(ada_legality::specs::Calls::formals_of_item))]
fn formals_of_item(
    alloc: Global,
    operation: Option<Operation>,
    actuals: &[ActualPart],
) -> Result<ImageList<FormalPart>, NoMemory>
    ensures { IfOk result (λ parts. parts ≡ formals_of_item operation actuals.now) }
{
    match operation {
        None => none(alloc),
        Some(operation) => {
            formals_of_operation(alloc, operation, moment_is_span(operation, actuals))
        }
    }
}

/// The formals of what is denoted.
#[tactic(auto, unfolding(ada_legality::specs::Calls::formals_denoted))]
pub fn formals_denoted(
    alloc: Global,
    known: &Known<'_, '_>,
    actuals: &[ActualPart],
    denoted: Denoted,
) -> Result<ImageList<FormalPart>, NoMemory>
    ensures { IfOk result (λ parts. parts ≡ formals_denoted known.now actuals.now denoted) }
{
    match denoted {
        Denoted::Item { item, .. } => formals_of_item(alloc, operation_of(item), actuals),
        _ => match denoted_kind(known.names.get(), denoted) {
            None => none(alloc),
            Some(kind) => formals_of_kind(alloc, kind),
        },
    }
}
