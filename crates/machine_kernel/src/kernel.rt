//! The kernel: it opens a run, and goes on by at most one line a call.
ghost use Rattle.std.specs.Prelude.{◌≡◌, ◌≤◌, ◌<◌, ◌+◌, [], Some};
ghost use Rattle.std.specs.Prelude.{None, true, false, IsTrue, length, OnOk, ◌++◌};
ghost use Rattle.line_writing.specs.declared.buffer.TheConstants.{BUFFER_BYTES};
ghost use Rattle.trace_text.specs.declared.lines.TheConstants.{LINE_BYTES};
ghost use Rattle.machine_kernel.specs.Reached.{is_in_time};
ghost use Rattle.machine_ticks.specs.declared.stops.Stopped.TheVariants as stopped;
ghost use Rattle.machine_ticks.specs.Ticks.{tick_events};
ghost use Rattle.profile_machine.specs.Run.{tock};
ghost use Rattle.machine_kernel.specs.Busy.{passed};

use crate::busy::skip_quiet_ticks;
use ann_base::{Moment, NoMemory};
use line_writing::{LineBuffer, write_line};
use machine_frames::Effect;
use machine_laws::runs::{busy_stretches_say_nothing, idle_stretches_say_nothing};
use machine_laws::time::{instants_take_no_time, runs_begin_at_0, tocks_take_one_tick};
use machine_program::Program;
use machine_run::instant;
use machine_ticks::{
    Stopped, TickLine, ended_by, event_of, opening, stop, tick_event, tock, why_lent,
};
use profile_image::{Image, Item};
use profile_machine::world::{Line, World};
use std::alloc::Global;
use trace_text::{Ended, EventRef};
use world_tables::List;

/// Why a run ends.
pub type Stop = Ended;

/// What a call of `next` did. It is small, since it is handed on at each tick.
#[derive(Clone, Copy)]
pub enum Next {
    /// It went on.
    Going,
    /// The run has ended, and all of its lines are told.
    Ended,
}

/// A run under way.
pub struct Kernel {
    alloc: Global,
    program: Program,
    bound: u64,
    /// The world. Between calls every effect is over.
    effect: Effect,
    /// Whether an instant comes next, or a tock.
    at_instant: bool,
    stop: Option<Stopped>,
    /// The tick of the lines that are owed: first those of an instant, then those of a tock, then
    /// the last of the run.
    told_at: u64,
    said: List<Line>,
    ticks: List<TickLine>,
    last: Option<Stopped>,
    ghost in_order: { effect.said ≡ [] },
    ghost in_time: { IsTrue (is_in_time at_instant stop effect.world.time bound) },
}

// Written out, so that whoever drops a kernel does not have the drops of all its parts to prove.
impl Drop for Kernel {
    fn drop(self) {
        let Kernel {
            alloc: _,
            program: _,
            bound: _,
            effect: _,
            at_instant: _,
            stop: _,
            told_at: _,
            said: _,
            ticks: _,
            last: _,
        } = self;
    }
}

impl Kernel {
    ghost use Rattle.std.specs.Prelude.{IfOk, OnErr};
    ghost use Rattle.trace_text.specs.Text.{ArePrintable, text_of};
    ghost use Rattle.machine_kernel.specs.Kernel.{shown, future, stop_to_come};
    ghost use Rattle.machine_kernel.specs.Kernel.{left_to_do, OwesNothing};
    ghost use Rattle.std.specs.Option.{IsSome};
    ghost use Rattle.machine_kernel.specs.Next.{IfGoing, IfEnded, IsOver};
    ghost use Rattle.machine_kernel.specs.Future.{advanced, opened, goes_by};
    ghost use Rattle.machine_kernel.specs.Future.{after_instant, after_tock};
    ghost use Rattle.machine_kernel.specs.Future.{unless_stopped, written_of, first_line};
    ghost use Rattle.profile_machine.specs.Instant.{instant};

    /// The opening world of the run of a program with a script, up to a bound. Its first lines are
    /// owed.
    pub(crate) fn open(
        alloc: Global,
        image: Image,
        script: List<(Moment, Item)>,
        bound: u64,
    ) -> Result<Kernel, NoMemory>
        ensures { IfOk result (λ kernel. shown kernel ≡ opened image script bound) }
    {
        runs_begin_at_0();
        let program = Program::of(alloc, image);
        let mut said = List::new(alloc);
        let effect = opening(alloc, &program, script, &mut said)?;
        Ok(Kernel {
            alloc,
            program,
            bound,
            effect,
            at_instant: true,
            stop: None,
            told_at: 0,
            said,
            ticks: List::new(alloc),
            last: None,
        })
    }

    /// Appends the first owed line; where none is owed, goes on by an instant or a tock, until a
    /// stop is reached. It needs LINE_BYTES free bytes. After an error the kernel is not used
    /// again.
    ///
    /// Errors: memory ran out, or a line has a name or a text that no trace can have.
    pub fn next(&mut self, out: &mut LineBuffer) -> Result<Next, NoMemory>
        requires { length out.old + LINE_BYTES ≤ BUFFER_BYTES }
        ensures step { OnOk result (shown self.new ≡ advanced (shown self.old)) }
        ensures told { OnOk result (out.new ≡ out.old ++ written_of (shown self.old).owed) }
        ensures printable { OnOk result (ArePrintable (first_line (shown self.old).owed)) }
        ensures err { OnErr result (out.new ≡ out.old) }
        ensures future { OnOk result
            (out.new ++ text_of (future self.new) ≡ out.old ++ text_of (future self.old)) }
        ensures lines { OnOk result
            (first_line (shown self.old).owed ++ future self.new ≡ future self.old) }
        ensures stop { OnOk result (stop_to_come self.new ≡ stop_to_come self.old) }
        ensures going { IfOk result (IfGoing (left_to_do self.new < left_to_do self.old)) }
        ensures ended { IfOk result (IfEnded
            ((future self.old ≡ []) × ((shown self.new).stop ≡ Some (stop_to_come self.old)))) }
    {
        instants_take_no_time();
        tocks_take_one_tick();
        idle_stretches_say_nothing();
        busy_stretches_say_nothing();
        self.step(out)
    }

    /// Why the run has ended, where `next` has answered that it has.
    ///
    /// Errors: the exception that ended it has a name that no trace can have.
    pub fn stop(&self) -> Result<Stop, NoMemory>
        requires { IsSome (shown self.now).stop }
        ensures { IfOk result (λ why. (shown self.now).stop ≡ Some why) }
    {
        match self.stop {
            Some(stopped) => ended_by(&self.program, stopped),
            None => unreachable!(),
        }
    }

    /// One step: an owed line is told, or the run goes on. A line is told in a call of its own,
    /// since a function pays at its entry for the room of what it keeps, and most steps tell no
    /// line.
    fn step(&mut self, out: &mut LineBuffer) -> Result<Next, NoMemory>
        requires { length out.old + LINE_BYTES ≤ BUFFER_BYTES }
        ensures step { OnOk result (shown self.new ≡ advanced (shown self.old)) }
        ensures told { OnOk result (out.new ≡ out.old ++ written_of (shown self.old).owed) }
        ensures printable { OnOk result (ArePrintable (first_line (shown self.old).owed)) }
        ensures err { OnErr result (out.new ≡ out.old) }
        ensures going { IfOk result
            (IfGoing ((shown self.old).owed ≡ [] → (shown self.old).stop ≡ None)) }
        ensures ended { IfOk result (IfEnded (IsOver (shown self.old) (shown self.new))) }
    {
        if self.owes_nothing() {
            self.go_on()
        } else {
            self.tell(out)
        }
    }

    /// Whether every line is told.
    fn owes_nothing(&self) -> bool
        ensures { result ≡ true → OwesNothing self.now }
    {
        self.said.is_empty() && self.ticks.is_empty() && self.last.is_none()
    }

    /// The same where a line may be owed: first those of an instant. The line lends its names, so
    /// it is written before it is taken off its list.
    fn tell(&mut self, out: &mut LineBuffer) -> Result<Next, NoMemory>
        requires { length out.old + LINE_BYTES ≤ BUFFER_BYTES }
        ensures step { OnOk result (shown self.new ≡ advanced (shown self.old)) }
        ensures told { OnOk result (out.new ≡ out.old ++ written_of (shown self.old).owed) }
        ensures printable { OnOk result (ArePrintable (first_line (shown self.old).owed)) }
        ensures err { OnErr result (out.new ≡ out.old) }
        ensures going { IfOk result
            (IfGoing ((shown self.old).owed ≡ [] → (shown self.old).stop ≡ None)) }
        ensures ended { IfOk result (IfEnded (IsOver (shown self.old) (shown self.new))) }
    {
        match self.said.front() {
            Some(line) => {
                let event = event_of(&self.program, line)?;
                write_line(self.told_at, &event, out);
                self.said.pop_front();
                Ok(Next::Going)
            }
            None => self.tell_of_tick(out),
        }
    }

    /// Tells the first line of a tock that is owed, or else the last line of the run.
    fn tell_of_tick(&mut self, out: &mut LineBuffer) -> Result<Next, NoMemory>
        requires room { length out.old + LINE_BYTES ≤ BUFFER_BYTES }
        requires said { self.old.said ≡ [] }
        ensures step { OnOk result (shown self.new ≡ advanced (shown self.old)) }
        ensures told { OnOk result (out.new ≡ out.old ++ written_of (shown self.old).owed) }
        ensures printable { OnOk result (ArePrintable (first_line (shown self.old).owed)) }
        ensures err { OnErr result (out.new ≡ out.old) }
        ensures going { IfOk result
            (IfGoing ((shown self.old).owed ≡ [] → (shown self.old).stop ≡ None)) }
        ensures ended { IfOk result (IfEnded (IsOver (shown self.old) (shown self.new))) }
    {
        let told_at = self.told_at;
        match self.ticks.front() {
            Some(line) => {
                write_line(told_at, &tick_event(*line), out);
                self.ticks.pop_front();
                Ok(Next::Going)
            }
            None => self.tell_last(out),
        }
    }

    /// Tells the last line of the run, if it is owed.
    fn tell_last(&mut self, out: &mut LineBuffer) -> Result<Next, NoMemory>
        requires room { length out.old + LINE_BYTES ≤ BUFFER_BYTES }
        requires said { self.old.said ≡ [] }
        requires ticks { self.old.ticks ≡ [] }
        ensures step { OnOk result (shown self.new ≡ advanced (shown self.old)) }
        ensures told { OnOk result (out.new ≡ out.old ++ written_of (shown self.old).owed) }
        ensures printable { OnOk result (ArePrintable (first_line (shown self.old).owed)) }
        ensures err { OnErr result (out.new ≡ out.old) }
        ensures going { IfOk result
            (IfGoing ((shown self.old).owed ≡ [] → (shown self.old).stop ≡ None)) }
        ensures ended { IfOk result (IfEnded (IsOver (shown self.old) (shown self.new))) }
    {
        match self.last {
            Some(stopped) => {
                let why = why_lent(&self.program, stopped)?;
                write_line(self.told_at, &EventRef::End { why }, out);
                self.last = None;
                Ok(Next::Going)
            }
            None => self.go_on(),
        }
    }

    /// Goes on where no line is owed, unless a stop is reached.
    fn go_on(&mut self) -> Result<Next, NoMemory>
        requires said { self.old.said ≡ [] }
        requires ticks { self.old.ticks ≡ [] }
        requires last { self.old.last ≡ None }
        ensures step { OnOk result
            (shown self.new ≡ unless_stopped (shown self.old).stop (shown self.old)) }
        ensures going { IfOk result (IfGoing ((shown self.old).stop ≡ None)) }
        ensures ended { IfOk result (IfEnded (IsOver (shown self.old) (shown self.new))) }
    {
        match self.stop {
            Some(_) => Ok(Next::Ended),
            None => {
                self.advance()?;
                Ok(Next::Going)
            }
        }
    }

    /// An instant or a tock.
    fn advance(&mut self) -> Result<(), NoMemory>
        requires said { self.old.said ≡ [] }
        requires ticks { self.old.ticks ≡ [] }
        requires last { self.old.last ≡ None }
        requires running { self.old.stop ≡ None }
        ensures { OnOk result (shown self.new ≡ goes_by self.old.at_instant (shown self.old)) }
    {
        if self.at_instant {
            self.instant()
        } else {
            self.tock()
        }
    }

    /// An instant: what the present moment brings about, and the test for a stop.
    fn instant(&mut self) -> Result<(), NoMemory>
        requires said { self.old.said ≡ [] }
        requires ticks { self.old.ticks ≡ [] }
        requires last { self.old.last ≡ None }
        requires running { self.old.stop ≡ None }
        requires at_instant { self.old.at_instant ≡ true }
        ensures { OnOk result
            (shown self.new
            ≡ after_instant (shown self.old)
            (instant (shown self.old).program (shown self.old).world)) }
    {
        instants_take_no_time();
        let now = self.effect.world.time;
        match instant(self.alloc, &self.program, &mut self.effect, &mut self.said) {
            Ok(()) => {
                let found = stop(self.bound, &self.effect.world);
                self.told_at = now;
                self.stop = found;
                self.last = found;
                self.at_instant = false;
                Ok(())
            }
            Err(fault) => {
                give_up(&mut self.effect, &mut self.stop);
                Err(fault)
            }
        }
    }

    /// A tock: one tick passes, and with it the idle or busy ticks behind it, which say nothing.
    fn tock(&mut self) -> Result<(), NoMemory>
        requires said { self.old.said ≡ [] }
        requires ticks { self.old.ticks ≡ [] }
        requires last { self.old.last ≡ None }
        requires running { self.old.stop ≡ None }
        requires at_tock { self.old.at_instant ≡ false }
        ensures { OnOk result
            (shown self.new
            ≡ after_tock (shown self.old) (tock (shown self.old).program (shown self.old).world)) }
    {
        tocks_take_one_tick();
        let now = self.effect.world.time;
        match pass_ticks(
            &self.program,
            self.bound,
            &mut self.effect.world,
            &mut self.ticks,
        ) {
            Ok(()) => {
                self.told_at = now;
                self.at_instant = true;
                Ok(())
            }
            Err(fault) => {
                give_up(&mut self.effect, &mut self.stop);
                Err(fault)
            }
        }
    }
}

// One tick passes, and those behind it that say nothing.
fn pass_ticks(
    p: &Program,
    bound: u64,
    world: &mut World,
    ticks: &mut List<TickLine>,
) -> Result<(), NoMemory>
    ensures passed { OnOk result (world.new ≡ passed p.now bound (tock p.now world.old).0) }
    ensures lines { OnOk result
        (tick_events ticks.new ≡ tick_events ticks.old ++ (tock p.now world.old).1) }
    ensures within { OnOk result
        ((tock p.now world.old).0.time ≤ bound → world.new.time ≤ bound) }
{
    tock(p, world, ticks)?;
    skip_quiet_ticks(p, bound, world)
}

// Memory ran out within an effect: nothing more of it is told, and the run goes on no more.
fn give_up(effect: &mut Effect, stop: &mut Option<Stopped>)
    ensures said { effect.new.said ≡ [] }
    ensures stop { stop.new ≡ Some stopped.Stuck }
{
    effect.said.clear();
    *stop = Some(Stopped::Stuck);
}
