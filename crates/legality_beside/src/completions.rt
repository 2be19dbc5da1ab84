//! Completions (3.11.1): one body, in the declaration's own part; returns (6.3); the tasks of
//! timers (D.14.1).
ghost use Rattle.std.specs.Prelude.{◌≡◌};
ghost use Rattle.std.specs.List.{list_any};
ghost use Rattle.ada_legality.specs.WholeSource.{same_kind, is_body_of, bodies_of};
ghost use Rattle.ada_legality.specs.WholeSource.{is_other_profile_of, has_known_body};
ghost use Rattle.ada_legality.specs.WholeSource.{is_uncompleted, is_return_of};
ghost use Rattle.ada_legality.specs.WholeSource.{is_task_constant, names_task};

use ada_completions::has_body;
use ada_entities::same_place;
use ada_legality::{BodyKind, Finding};
use ada_regions::Names;
use ann_base::Place;

fn same_kind(a: BodyKind, b: BodyKind) -> bool
    ensures { result ≡ same_kind a b }
{
    match a {
        BodyKind::Subprogram => matches!(b, BodyKind::Subprogram),
        BodyKind::Task => matches!(b, BodyKind::Task),
        BodyKind::Protected => matches!(b, BodyKind::Protected),
        BodyKind::ProtectedEntry => matches!(b, BodyKind::ProtectedEntry),
    }
}

/// Whether it is a body of this kind and entity.
fn is_body_of(kind: BodyKind, entity: u32, finding: &Finding) -> bool
    ensures { result ≡ is_body_of kind entity finding.now }
{
    match finding {
        Finding::Completed {
            kind: of_kind,
            entity: other,
        } => same_kind(kind, *of_kind) && entity == *other,
        _ => false,
    }
}

/// How many bodies of this kind an entity has.
#[tactic(auto, unfolding(ada_legality::specs::WholeSource::bodies_of))]
fn bodies_of(found: &[Finding], kind: BodyKind, entity: u32) -> usize
    ensures { result ≡ bodies_of found.now kind entity }
{
    found
        .iter()
        .filter(|finding| is_body_of(kind, entity, finding))
        .count()
}

/// Whether it is a body of another profile.
fn is_other_profile_of(kind: BodyKind, entity: u32, finding: &Finding) -> bool
    ensures { result ≡ is_other_profile_of kind entity finding.now }
{
    match finding {
        Finding::OtherProfile {
            kind: of_kind,
            entity: other,
        } => same_kind(kind, *of_kind) && entity == *other,
        _ => false,
    }
}

/// Whether the table knows the body of an entity, unless it is an entry's.
#[tactic(auto, unfolding(ada_legality::specs::WholeSource::has_known_body))]
fn has_known_body(names: &Names<'_>, kind: BodyKind, entity: u32) -> bool
    ensures { result ≡ has_known_body names.now kind entity }
{
    match kind {
        BodyKind::ProtectedEntry => true,
        BodyKind::Subprogram => has_body(names, entity),
        BodyKind::Task => has_body(names, entity),
        BodyKind::Protected => has_body(names, entity),
    }
}

fn has_other_profile(found: &[Finding], kind: BodyKind, entity: u32) -> bool
    ensures { result ≡ list_any (is_other_profile_of kind entity) found.now }
{
    found
        .iter()
        .any(|finding| is_other_profile_of(kind, entity, finding))
}

/// Whether a declaration has no body, two, or one of another profile.
#[tactic(auto, unfolding(ada_legality::specs::WholeSource::is_uncompleted))]
pub(crate) fn is_uncompleted(
    names: &Names<'_>,
    found: &[Finding],
    kind: BodyKind,
    entity: u32,
) -> bool
    ensures { result ≡ is_uncompleted names.now found.now kind entity }
{
    let has_one = has_known_body(names, kind, entity) && bodies_of(found, kind, entity) == 1;
    !has_one || has_other_profile(found, kind, entity)
}

fn is_return_of(function: Place, finding: &Finding) -> bool
    ensures { result ≡ is_return_of function finding.now }
{
    match finding {
        Finding::Returned { function: other } => same_place(function, *other),
        _ => false,
    }
}

/// Whether a function has a return statement.
pub(crate) fn has_return(found: &[Finding], function: Place) -> bool
    ensures { result ≡ list_any (is_return_of function) found.now }
{
    found.iter().any(|finding| is_return_of(function, finding))
}

fn is_task_constant(entity: u32, finding: &Finding) -> bool
    ensures { result ≡ is_task_constant entity finding.now }
{
    match finding {
        Finding::TaskConstant { entity: other } => entity == *other,
        _ => false,
    }
}

fn has_task_constant(found: &[Finding], entity: u32) -> bool
    ensures { result ≡ list_any (is_task_constant entity) found.now }
{
    found
        .iter()
        .any(|finding| is_task_constant(entity, finding))
}

/// Whether a constant names the task of a timer.
#[tactic(auto, unfolding(ada_legality::specs::WholeSource::names_task))]
pub(crate) fn names_task(found: &[Finding], entity: Option<u32>) -> bool
    ensures { result ≡ names_task found.now entity }
{
    match entity {
        None => false,
        Some(entity) => has_task_constant(found, entity),
    }
}
