//! Exclusion of protected actions, whole: a law of the profile machine's definitions alone, which
//! holds of every program, script and bound. Each is the contract of a function that does nothing.
ghost use Rattle.line_laws.specs.ExitLaws.{FreeRunsKeepExclusion, RunsKeepExclusion};

/// Where at each instant of a run the task that is at the end of an action waits for no entry call,
/// the lines of the run keep the whole law of exclusion: actions that exclude each other are never
/// open together, an object is found held only where another has it open, and each action that ends
/// was begun by the same subject on the same object and had not ended (9.5.1).
#[tactic(auto, using(crate::proofs::Exits::ExitRuns::free_runs_keep_exclusion))]
pub fn free_runs_keep_exclusion()
    ensures { FreeRunsKeepExclusion }
{}

/// The lines of every run keep the whole law of exclusion: actions that exclude each other are
/// never open together, an object is found held only where another has it open, and each action
/// that ends was begun by the same subject on the same object and had not ended (9.5.1).
#[tactic(auto, using(crate::proofs::Exits::AwakeRuns::runs_keep_exclusion))]
pub fn runs_keep_exclusion()
    ensures { RunsKeepExclusion }
{}
