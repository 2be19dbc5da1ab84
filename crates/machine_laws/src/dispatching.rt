//! Dispatching.
ghost use Rattle.machine_laws.specs.DispatchLaws.{RunsDispatch};

/// At each tick of every run, up to its last line, the runner is the first of the ready queues, and
/// nobody runs exactly where they are empty (D.2.1, D.2.3, D.2.6).
pub fn runs_dispatch()
    ensures { RunsDispatch }
{}
