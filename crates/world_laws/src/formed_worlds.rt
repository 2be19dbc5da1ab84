//! Every world that a run reaches is well formed: a law of the profile machine's definitions alone,
//! put together of those of the modules beside it, each of which has one part. It is the contract
//! of functions that do nothing.
ghost use Rattle.world_laws.specs.FormedWorlds.{ReachedWorldsAreWellFormed, RunsAreWellFormed};

/// In every world that a run reaches, of an image in which sequences with handlers stand as a
/// source makes them: the ready queues hold just who is ready, in order (ISO/IEC 8652:2012, D.2.1);
/// numbered lists are in order; the scopes in use are those of the marks, with as many cells as
/// their text says (3.1, 8.2); open protected actions are marks of their holders, who are ready at
/// the ceiling or above (9.5.1, D.3); entry queues hold calls on their entries that have not begun
/// (9.5.3); appointments are in order, none is before now, and each is awaited (9.6, 9.7); marks
/// are struck for a cause, and a Finalize stands where its end leads on (7.6.1, 9.7.4, 9.8); and
/// whoever is ready has opened the sequence with handlers to which it has come (11.2).
#[tactic(auto, using(crate::proofs::Formed::FormedWorlds::reached_worlds_are_well_formed))]
pub fn reached_worlds_are_well_formed()
    ensures { ReachedWorldsAreWellFormed }
{}

/// The test that computes a run, asks each of its worlds whether it is well formed, and that none
/// is beyond the bound, is true of every run of such an image.
#[tactic(auto, using(crate::proofs::Formed::FormedRuns::runs_are_well_formed))]
pub fn runs_are_well_formed()
    ensures { RunsAreWellFormed }
{}
