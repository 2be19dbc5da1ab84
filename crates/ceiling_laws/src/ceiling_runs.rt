//! The law of ceilings and every run: laws of the profile machine's definitions alone. Each is the
//! contract of a function that does nothing.
ghost use Rattle.ceiling_laws.specs.RunLaws.{AgentKeepsBase, InstantsKeepCeilings};
ghost use Rattle.ceiling_laws.specs.RunLaws.{TocksKeepCeilings, CeilingsAreTold};
ghost use Rattle.ceiling_laws.specs.RunLaws.{BasesAreTold, DeadlinesAreOfTasks};
ghost use Rattle.ceiling_laws.specs.RunLaws.{WhoActsIsShown, PlacesKeepCeilings};

/// Handlers run at the priority of interrupts: the agent's base priority is that in every world
/// that a run reaches.
#[tactic(auto, using(crate::proofs::Runs::AgentLemmas::agent_keeps_base))]
pub fn agent_keeps_its_base()
    ensures { AgentKeepsBase }
{}

/// Where the lines before an instant show the place and the base priority of whose action has
/// ended, and the ceilings of the objects, each line of the instant keeps the law of ceilings: an
/// action begins only in the effect of who is let in, and before anything is said of its level
/// (D.3). The lines of a tock keep it wherever.
#[tactic(auto, using(crate::proofs::Runs::EnterMoves::instants_keep_ceilings, crate::proofs::Runs::EnterMoves::tocks_keep_ceilings))]
pub fn instants_keep_the_law_of_ceilings()
    ensures instants { InstantsKeepCeilings }
    ensures tocks { TocksKeepCeilings }
{}

/// The lines of a run tell the ceiling of each protected object that is there, and the base
/// priority of each task, before each instant and behind it (D.3, D.5.1).
#[tactic(auto, using(crate::proofs::Runs::CeilingLemmas::ceilings_are_told, crate::proofs::Runs::BaseLemmas::bases_are_told))]
pub fn ceilings_and_bases_are_told()
    ensures ceilings { CeilingsAreTold }
    ensures bases { BasesAreTold }
{}

/// Before each instant of a run of a source whose interrupts have no deadlines, an entry of the
/// queue that the lines show has a deadline only where the source has a range that is dispatched by
/// deadlines and the entry is of a task; and the lines tell that task's base priority (D.2.6).
#[tactic(auto, using(crate::proofs::Runs::DeadlineLemmas::deadlines_are_of_tasks))]
pub fn deadlines_are_of_tasks()
    ensures { DeadlinesAreOfTasks }
{}

/// Before each instant of a run, who acts stands in the queue that the lines show (D.2.1).
#[tactic(auto, using(crate::proofs::Runs::ShownPlaces::who_acts_is_shown))]
pub fn who_acts_is_shown()
    ensures { WhoActsIsShown }
{}

/// A run of a source whose interrupts have no deadlines keeps the law of ceilings, if before each
/// instant its lines place whose action has ended at a level that is not above its active priority
/// (D.3).
#[tactic(auto, using(crate::proofs::Runs::WholeRuns::places_keep_ceilings))]
pub fn places_keep_the_law_of_ceilings()
    ensures { PlacesKeepCeilings }
{}
