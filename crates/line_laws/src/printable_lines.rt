//! Laws of the lines of every run, which hold of every program, script and bound: each line can be
//! printed, and the bound of a run cuts it off and changes nothing before. They are laws of the
//! profile machine's definitions alone. Each is the contract of a function that does nothing.
ghost use Rattle.std.specs.Prelude.{IsTrue};
ghost use Rattle.machine_laws.specs.Rows.Row24_1.{row_24_1_program};
ghost use Rattle.line_laws.specs.Names.{is_named, NamesAreTested, EventsArePrintable};
ghost use Rattle.line_laws.specs.Names.{LinesArePrintable, RunsArePrintable};
ghost use Rattle.line_laws.specs.Texts.{TextsAreOfPuts, TextsAreShort};
ghost use Rattle.line_laws.specs.Bounds.{LongerRunsGoOn, BoundsChangeNothingBefore};
ghost use Rattle.line_laws.specs.Bounds.{RunsHaveTicksLeft};

use machine_laws::runs::runs_stay_within;

/// Where the test computes to true, the names of a program can stand in a line. It does of a worked
/// program.
#[tactic(auto, using(crate::proofs::Printing::Tests::names_are_tested, crate::proofs::Printing::Tests::row_is_named))]
pub fn names_are_tested()
    ensures test { NamesAreTested }
    ensures row { IsTrue (is_named row_24_1_program) }
{}

/// Where the names of a program can stand in a line, each line that an effect says is printable
/// with its names, but for the two kinds below.
#[tactic(auto, using(crate::proofs::Printing::NameLemmas::events_are_printable))]
pub fn events_are_printable()
    ensures { EventsArePrintable }
{}

/// Where the names of a program can stand in a line, every line of each of its runs is printable,
/// but for two kinds: a line that names an item which the program does not have, so that its name
/// is empty, and a line that puts what is no text.
#[tactic(auto, using(crate::proofs::Printing::Printable::lines_are_printable))]
pub fn lines_are_printable()
    ensures { LinesArePrintable }
{}

/// Each text that a run puts is that of the pieces of a Put_Line of the program, whose expressions
/// had some values (A.10.7). Where a line has room for each Put_Line of the program, and these
/// values were within 32 bits, a line can have it.
#[tactic(auto, using(crate::proofs::Printing::Puts::texts_are_of_puts, crate::proofs::Printing::Puts::texts_are_short))]
pub fn texts_are_put()
    ensures puts { TextsAreOfPuts }
    ensures short { TextsAreShort }
{}

/// Where besides no line of a run lacks a name or puts what is no text, and the numbers and ticks
/// of its lines fit their types, the run is a list of printable lines: another such list has
/// another text.
#[tactic(auto, using(crate::proofs::Printing::Runs::runs_are_printable))]
pub fn runs_are_printable()
    ensures { RunsArePrintable }
{
    runs_stay_within();
}

/// Where the bound ended a run, its lines but the `end` line are a front of those of a run under
/// any greater bound, which has the others at the bound or later; where something else ended it, a
/// greater bound gives the same run.
#[tactic(auto, using(crate::proofs::Printing::BoundLemmas::longer_runs_go_on))]
pub fn longer_runs_go_on()
    ensures { LongerRunsGoOn }
{}

/// The lines up to a tick below the bound are the same under every greater bound.
#[tactic(auto, using(crate::proofs::Printing::BoundLemmas::bounds_change_nothing_before))]
pub fn bounds_change_nothing_before()
    ensures { BoundsChangeNothingBefore }
{}

/// A run is defined by counting down the ticks that are left. It never comes to the end of the
/// count: with more to count down it would be the same.
#[tactic(auto, using(crate::proofs::Printing::BoundLemmas::runs_have_ticks_left))]
pub fn runs_have_ticks_left()
    ensures { RunsHaveTicksLeft }
{}
