//! All that the program does.
ghost use Rattle.std.specs.Prelude.{◌≡◌, ◌≢◌, ◌≤◌, ◌⊎◌, IsTrue, None, codes};
ghost use Rattle.ann_base.specs.Outside.{Rose, extended};
ghost use Rattle.trace_text.specs.Laws.{DispatchOk, CeilingOk, ExclusiveOk, HandlersOk, LeftOk};
ghost use Rattle.trace_text.specs.Text.{ArePrintable};
ghost use Rattle.release_laws.specs.ReleaseLaws.{ReleasesOk};
ghost use Rattle.line_laws.specs.TickLaws.{SwitchesOk, ReleasesInOrder};
ghost use Rattle.line_laws.specs.TickLaws.{StuckOk, follows_tick_order};
ghost use Rattle.commands.specs.Asked.{asked_of};
ghost use Rattle.commands.specs.Outside.{shelf_of, sink_of};
ghost use Rattle.commands.specs.Performed.{IsUnread};
ghost use Rattle.commands.specs.Statuses.{Headline, HeadlineUnder, LoadTold, AcceptanceTold};
ghost use Rattle.commands.specs.Statuses.{TableTold, BeyondTold, TraceTold, LawsTold};
ghost use Rattle.commands.specs.Statuses.{ReportTold, DoneTold, LawTold, RunTold};
ghost use Rattle.commands.specs.Statuses.{NotAccepted, NotAcceptedUnder, LoadNotAccepted};
ghost use Rattle.commands.specs.Statuses.{NoScript, ScriptRefusalTold, RefusalTold};
ghost use Rattle.commands.specs.Statuses.{BreachTold, TraceRefusalTold, FailureTold};
ghost use Rattle.commands.specs.Statuses.{TableRefusalTold, PrefixTold, NoteTried, IsStatus};

use ann_base::{Shelf, Sink};
use ceiling_laws::runs_keep_the_law_of_ceilings;
use commands::conclude;
use line_laws::{
    runs_are_in_tick_order, runs_are_rightly_stuck, runs_keep_exclusion, runs_keep_handlers,
    runs_leave_rightly, runs_release_in_order, runs_switch,
};
use machine_laws::dispatching::runs_dispatch;
use policy_laws::deadlines_are_below_interrupts;
use release_laws::lines_tell_releases;
use run_commands::perform;
use std::alloc::Global;
use trace_files::lines_tell;
use trace_laws::verdicts_tell;

/// Does what the words ask for, and answers the status with which the program ends: 0 a run is
/// completed, a source is accepted, a table passes its test, or a trace keeps the laws or is
/// reported, 1 a run ended by an exception, 2 it is stuck, 3 its bound was reached, 4 the source is
/// refused, 5 the script is refused, 6 the words are refused, 7 a file could not be read, 8
/// something could not be written, 9 memory ran out, 10 a trace breaks a law, 11 the trace is
/// refused, 12 a table fails its test, 13 the table is refused. What was asked for goes to `out`,
/// and notes on statuses 4 to 9, 11 and 13 to `notes`.
pub fn top<S: Shelf, K: Sink>(
    alloc: Global,
    words: &[Vec<u8>],
    shelf: &mut S,
    out: &mut K,
    notes: &mut K,
) -> u8
    // What is accepted is run, and its run is written whole.
    ensures headline { Headline (asked_of words.now)
        (shelf_of S.files S.faults shelf.old shelf.new)
        (sink_of K.held K.faults out.old out.new)
        (sink_of K.held K.faults notes.old notes.new) result }
    // The same under the items of a script that is asked for.
    ensures headline_under { HeadlineUnder (asked_of words.now)
        (shelf_of S.files S.faults shelf.old shelf.new)
        (sink_of K.held K.faults out.old out.new)
        (sink_of K.held K.faults notes.old notes.new) result }
    // The same of a load: the summary of its run is written.
    ensures loaded { LoadTold (asked_of words.now)
        (sink_of K.held K.faults out.old out.new)
        (sink_of K.held K.faults notes.old notes.new) result }
    // It is told to be accepted where that was asked for.
    ensures accepted { AcceptanceTold (asked_of words.now)
        (shelf_of S.files S.faults shelf.old shelf.new)
        (sink_of K.held K.faults out.old out.new)
        (sink_of K.held K.faults notes.old notes.new) result }
    // A table is tested where that was asked for, or is refused.
    ensures tested { TableTold (asked_of words.now)
        (shelf_of S.files S.faults shelf.old shelf.new)
        (sink_of K.held K.faults out.old out.new)
        (sink_of K.held K.faults notes.old notes.new) result }
    // Where a busy period is written, no window of any length is overrun.
    ensures beyond { BeyondTold (asked_of words.now)
        (shelf_of S.files S.faults shelf.old shelf.new) result }
    // What is asked of a trace is told where it is there, or it is refused.
    ensures traced { TraceTold (asked_of words.now)
        (shelf_of S.files S.faults shelf.old shelf.new)
        (sink_of K.held K.faults out.old out.new)
        (sink_of K.held K.faults notes.old notes.new) result }
    // Where the laws are asked for, that is the one verdict that is true of the trace.
    ensures laws { LawsTold (asked_of words.now)
        (shelf_of S.files S.faults shelf.old shelf.new)
        (sink_of K.held K.faults out.old out.new)
        (sink_of K.held K.faults notes.old notes.new) result }
    // Where the report is asked for, it is that of the lines of the trace, exactly where they are
    // formed.
    ensures reported { ReportTold (asked_of words.now)
        (shelf_of S.files S.faults shelf.old shelf.new)
        (sink_of K.held K.faults out.old out.new)
        (sink_of K.held K.faults notes.old notes.new) result }
    // The statuses: 0 to 3 come only where what was asked for was done.
    ensures statuses { IsStatus result }
    ensures run { result ≤ 3 → DoneTold (asked_of words.now)
        (shelf_of S.files S.faults shelf.old shelf.new)
        (sink_of K.held K.faults out.old out.new) result }
    // The lines of a run that is asked for are printable, so the text that is written says which
    // lines they are: different lists of printable lines have different texts.
    ensures printable { result ≤ 3 → LawTold ArePrintable (asked_of words.now)
        (shelf_of S.files S.faults shelf.old shelf.new)
        (sink_of K.held K.faults out.old out.new) }
    // They keep these laws: who runs is the first of the ready queues; nobody enters a protected
    // object above its ceiling; a protected action begins only beside those that it may be open
    // with, and one that ends was open; effects of a tick come first, then who runs, then who is
    // served; a `run` line is a switch; releases are taken up in their order, one is served before
    // the next is, and the agent is ready just where one is left to serve; a region is left once,
    // and its controlled objects are finalized in the reverse of their order; a run is stuck only
    // where nobody is ready.
    ensures dispatch { result ≤ 3 → LawTold DispatchOk (asked_of words.now)
        (shelf_of S.files S.faults shelf.old shelf.new)
        (sink_of K.held K.faults out.old out.new) }
    ensures ceilings { result ≤ 3 → LawTold CeilingOk (asked_of words.now)
        (shelf_of S.files S.faults shelf.old shelf.new)
        (sink_of K.held K.faults out.old out.new) }
    ensures exclusion { result ≤ 3 → LawTold ExclusiveOk (asked_of words.now)
        (shelf_of S.files S.faults shelf.old shelf.new)
        (sink_of K.held K.faults out.old out.new) }
    ensures in_tick_order { result ≤ 3 → LawTold (λ lines. IsTrue (follows_tick_order lines))
        (asked_of words.now)
        (shelf_of S.files S.faults shelf.old shelf.new)
        (sink_of K.held K.faults out.old out.new) }
    ensures switches { result ≤ 3 → LawTold SwitchesOk (asked_of words.now)
        (shelf_of S.files S.faults shelf.old shelf.new)
        (sink_of K.held K.faults out.old out.new) }
    ensures releases_in_order { result ≤ 3 → LawTold ReleasesInOrder (asked_of words.now)
        (shelf_of S.files S.faults shelf.old shelf.new)
        (sink_of K.held K.faults out.old out.new) }
    // Each handler is released at its tick: the `release` lines, with their ticks and the handlers
    // that they name, are just those that the run's history owes, for events and timers that were
    // set, budgets that ran out and interrupts that came.
    ensures release_causes { result ≤ 3 → RunTold ReleasesOk (asked_of words.now)
        (shelf_of S.files S.faults shelf.old shelf.new)
        (sink_of K.held K.faults out.old out.new) }
    ensures handlers { result ≤ 3 → LawTold HandlersOk (asked_of words.now)
        (shelf_of S.files S.faults shelf.old shelf.new)
        (sink_of K.held K.faults out.old out.new) }
    ensures leaving { result ≤ 3 → LawTold LeftOk (asked_of words.now)
        (shelf_of S.files S.faults shelf.old shelf.new)
        (sink_of K.held K.faults out.old out.new) }
    ensures stuck { result ≤ 3 → LawTold StuckOk (asked_of words.now)
        (shelf_of S.files S.faults shelf.old shelf.new)
        (sink_of K.held K.faults out.old out.new) }
    ensures quiet { result ≤ 3 → K.held notes.new ≡ K.held notes.old }
    // 4: the source is refused, exactly where it is not accepted.
    ensures refused_source { result ≡ 4 → RefusalTold (asked_of words.now)
        (shelf_of S.files S.faults shelf.old shelf.new)
        (sink_of K.held K.faults notes.old notes.new) }
    ensures not_accepted { NotAccepted (asked_of words.now)
        (shelf_of S.files S.faults shelf.old shelf.new) result }
    ensures not_accepted_under { NotAcceptedUnder (asked_of words.now)
        (shelf_of S.files S.faults shelf.old shelf.new) result }
    ensures load_not_accepted { LoadNotAccepted (asked_of words.now) result }
    ensures kept_4 { result ≡ 4 → K.held out.new ≡ K.held out.old }
    // 5: the script is refused, exactly where the source is accepted and it is none.
    ensures refused_script { result ≡ 5 → ScriptRefusalTold (asked_of words.now)
        (shelf_of S.files S.faults shelf.old shelf.new)
        (sink_of K.held K.faults notes.old notes.new) }
    ensures no_script { NoScript (asked_of words.now)
        (shelf_of S.files S.faults shelf.old shelf.new) result }
    ensures kept_5 { result ≡ 5 → K.held out.new ≡ K.held out.old }
    // 6: the words are refused, exactly where they are not asked for.
    ensures words { result ≡ 6 → asked_of words.now ≡ None }
    ensures refused_words { asked_of words.now ≡ None → result ≢ 8 → result ≡ 6 }
    ensures kept_6 { result ≡ 6 → K.held out.new ≡ K.held out.old }
    ensures note_6 { result ≡ 6 →
        K.held notes.new ≡ extended (K.held notes.old) (codes "words refused\n") }
    // 7: only where the shelf's faults rose, or it tells its files and a named one is not among
    // them.
    ensures read_fault { result ≡ 7 → IsUnread (asked_of words.now)
        (shelf_of S.files S.faults shelf.old shelf.new) }
    ensures kept_7 { result ≡ 7 → K.held out.new ≡ K.held out.old }
    ensures note_7 { result ≡ 7 →
        K.held notes.new ≡ extended (K.held notes.old) (codes "read fault\n") }
    // 8: only where the faults of out or notes rose.
    ensures write_fault { result ≡ 8 →
        Rose (K.faults out.old) (K.faults out.new)
        ⊎ Rose (K.faults notes.old) (K.faults notes.new) }
    ensures prefix_8 { result ≡ 8 → PrefixTold (asked_of words.now)
        (shelf_of S.files S.faults shelf.old shelf.new)
        (sink_of K.held K.faults out.old out.new) }
    ensures note_8 { result ≡ 8 → NoteTried (asked_of words.now)
        (shelf_of S.files S.faults shelf.old shelf.new)
        (sink_of K.held K.faults out.old out.new)
        (sink_of K.held K.faults notes.old notes.new) }
    // 9: memory ran out.
    ensures prefix_9 { result ≡ 9 → PrefixTold (asked_of words.now)
        (shelf_of S.files S.faults shelf.old shelf.new)
        (sink_of K.held K.faults out.old out.new) }
    ensures note_9 { result ≡ 9 →
        K.held notes.new ≡ extended (K.held notes.old) (codes "no memory\n") }
    // 10: a trace breaks a law.
    ensures broken { result ≡ 10 → BreachTold (asked_of words.now)
        (shelf_of S.files S.faults shelf.old shelf.new)
        (sink_of K.held K.faults out.old out.new) }
    ensures quiet_10 { result ≡ 10 → K.held notes.new ≡ K.held notes.old }
    // 11: the trace is refused.
    ensures refused_trace { result ≡ 11 → TraceRefusalTold (asked_of words.now)
        (shelf_of S.files S.faults shelf.old shelf.new)
        (sink_of K.held K.faults notes.old notes.new) }
    ensures kept_11 { result ≡ 11 → K.held out.new ≡ K.held out.old }
    // 12: a table fails its test.
    ensures failed_test { result ≡ 12 → FailureTold (asked_of words.now)
        (shelf_of S.files S.faults shelf.old shelf.new)
        (sink_of K.held K.faults out.old out.new) result }
    ensures quiet_12 { result ≡ 12 → K.held notes.new ≡ K.held notes.old }
    // 13: the table is refused.
    ensures refused_table { result ≡ 13 → TableRefusalTold (asked_of words.now)
        (shelf_of S.files S.faults shelf.old shelf.new)
        (sink_of K.held K.faults notes.old notes.new) }
    ensures kept_13 { result ≡ 13 → K.held out.new ≡ K.held out.old }
    // Counts of faults do not fall.
    ensures monotone_shelf { S.faults shelf.old ≤ S.faults shelf.new }
    ensures monotone_out { K.faults out.old ≤ K.faults out.new }
    ensures monotone_notes { K.faults notes.old ≤ K.faults notes.new }
{
    verdicts_tell();
    lines_tell();
    runs_dispatch();
    deadlines_are_below_interrupts();
    runs_keep_the_law_of_ceilings();
    runs_keep_exclusion();
    runs_are_in_tick_order();
    runs_switch();
    runs_release_in_order();
    lines_tell_releases();
    runs_keep_handlers();
    runs_leave_rightly();
    runs_are_rightly_stuck();
    let outcome = perform(alloc, words, shelf, out);
    conclude(notes, outcome)
}
