//! Handlers of interrupts, timers, budgets and timing events: laws of the profile machine's
//! definitions alone, which hold of every program, script and bound. Each is the contract of a
//! function that does nothing.
ghost use Rattle.line_laws.specs.HandlerLaws.{RunsKeepHandlers, RunsServeInTurn};

/// In every run the `release`, `serve` and `served` lines each bear 1, 2, 3 and so on; no release
/// is served before it came, or while another is served.
#[tactic(auto, using(crate::proofs::Handlers::InTurn::runs_serve_in_turn))]
pub fn runs_serve_in_turn()
    ensures { RunsServeInTurn }
{}

/// Every run keeps the law of handlers: beside this, at each tick the agent is in the queue exactly
/// where some release is not yet served, and where it runs exactly one is being served.
pub fn runs_keep_handlers()
    ensures { RunsKeepHandlers }
{}
