//! What every world that a run reaches keeps of its lists.
//!
//! Other parts of the test `is_well_formed` are laws of `world_laws`:
//!
//! - who is in the ready queues, and where, of `place_worlds` (D.2.1);
//! - the scopes in use are those of the marks, each run by whose mark it is, of `scope_worlds`
//!   (3.1);
//! - open protected actions are marks of their holders, who are not blocked and have at least the
//!   ceiling as active
//!   priority, of `action_worlds` (9.5.1, D.3);
//! - what stands in an entry queue is a call on that entry which has not begun, of `queue_worlds`
//!   (9.5.3).
//!
//! That no appointment is before now is a law of `time`.
ghost use Rattle.machine_laws.specs.NumberLaws.{TasksAreNumbered, CallsAreNumbered};
ghost use Rattle.machine_laws.specs.NumberLaws.{RegisteredAreNumbered, ScopesAreNumbered};
ghost use Rattle.machine_laws.specs.NumberLaws.{ObjectsAreNumbered, ReleasesAreNumbered};
ghost use Rattle.machine_laws.specs.NumberLaws.{AppointmentsAreInOrder};

/// In every world that a run reaches, numbered lists are in the order of their numbers, no number
/// of a task or of a registered object is one that was not drawn, releases are numbered without a
/// gap, and appointments stand by moment.
#[tactic(auto, using(crate::proofs::NumberLemmas::reached_tasks, crate::proofs::NumberLemmas::reached_calls, crate::proofs::NumberLemmas::reached_registered, crate::proofs::NumberLemmas::reached_scopes, crate::proofs::NumberLemmas::reached_objects, crate::proofs::NumberLemmas::reached_releases, crate::proofs::NumberLemmas::reached_appointments))]
pub fn reached_worlds_are_numbered()
    ensures tasks { TasksAreNumbered }
    ensures calls { CallsAreNumbered }
    ensures registered { RegisteredAreNumbered }
    ensures scopes { ScopesAreNumbered }
    ensures objects { ObjectsAreNumbered }
    ensures releases { ReleasesAreNumbered }
    ensures appointments { AppointmentsAreInOrder }
{}
