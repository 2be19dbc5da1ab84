//! Small sources that are accepted, each with its image and the text of its run, which ends before
//! tick 100: the checker computes both from the bytes.
ghost use Rattle.std.specs.Prelude.{◌≡◌, [], Ok};
ghost use Rattle.ada_verdicts.specs.Accepted.{judged};
ghost use Rattle.profile_machine.specs.Run.{lines_of_run};
ghost use Rattle.trace_text.specs.Text.{text_of};
ghost use Rattle.lesson_laws.specs.HelloSource.{hello_source, hello_image, hello_trace};
ghost use Rattle.lesson_laws.specs.LeastSource.{least_source, least_image, least_trace};
ghost use Rattle.lesson_laws.specs.TaskSource.{task_source, task_image, task_trace};
ghost use Rattle.lesson_laws.specs.ProtectedSource.{protected_source};
ghost use Rattle.lesson_laws.specs.ProtectedSource.{protected_image, protected_trace};
ghost use Rattle.lesson_laws.specs.RendezvousSource.{rendezvous_source};
ghost use Rattle.lesson_laws.specs.RendezvousSource.{rendezvous_image, rendezvous_trace};
ghost use Rattle.lesson_laws.specs.AbortSource.{abort_source, abort_image, abort_trace};

/// The least source: a main procedure that does nothing.
#[tactic(auto, using(crate::proofs::LeastSource::least_is_judged, crate::proofs::LeastSource::least_runs))]
pub fn least_from_bytes()
    ensures judged { judged least_source ≡ Ok least_image }
    ensures runs { text_of (lines_of_run least_image [] 100) ≡ least_trace }
{}

/// A source with a task: it is created, activated, runs and terminates, and the main procedure
/// waits for it.
#[tactic(auto, using(crate::proofs::TaskSource::task_is_judged, crate::proofs::TaskSource::task_runs))]
pub fn task_from_bytes()
    ensures judged { judged task_source ≡ Ok task_image }
    ensures runs { text_of (lines_of_run task_image [] 100) ≡ task_trace }
{}

/// A source with a protected object, whose procedure the main procedure calls.
#[tactic(auto, using(crate::proofs::ProtectedSource::protected_is_judged, crate::proofs::ProtectedSource::protected_runs))]
pub fn protected_from_bytes()
    ensures judged { judged protected_source ≡ Ok protected_image }
    ensures runs { text_of (lines_of_run protected_image [] 100) ≡ protected_trace }
{}

/// A source with a rendezvous: the main procedure calls an entry, and the task of the entry
/// accepts the call.
#[tactic(auto, using(crate::proofs::RendezvousSource::rendezvous_is_judged, crate::proofs::RendezvousSource::rendezvous_runs))]
pub fn rendezvous_from_bytes()
    ensures judged { judged rendezvous_source ≡ Ok rendezvous_image }
    ensures runs { text_of (lines_of_run rendezvous_image [] 100) ≡ rendezvous_trace }
{}

/// A source with an abort: the main procedure aborts a task that waits for a call.
#[tactic(auto, using(crate::proofs::AbortSource::abort_is_judged, crate::proofs::AbortSource::abort_runs))]
pub fn abort_from_bytes()
    ensures judged { judged abort_source ≡ Ok abort_image }
    ensures runs { text_of (lines_of_run abort_image [] 100) ≡ abort_trace }
{}

/// The first lesson, `examples/hello.adb`: a line is put.
#[tactic(auto, using(crate::proofs::HelloSource::hello_is_judged, crate::proofs::HelloSource::hello_runs))]
pub fn hello_from_bytes()
    ensures judged { judged hello_source ≡ Ok hello_image }
    ensures runs { text_of (lines_of_run hello_image [] 100) ≡ hello_trace }
{}
