//! Two worked runs: their words, their files, and the trace that was worked out by hand.

/// A worked run.
#[derive(Clone, Copy)]
pub(super) struct Row {
    pub(super) words: &'static [&'static str],
    pub(super) source: &'static [u8],
    /// Nothing, for a run without a script.
    pub(super) script: &'static [u8],
    pub(super) trace: &'static [u8],
    /// The status with which it ends.
    pub(super) status: u8,
    /// How many calls of the shelf it takes, if one call moves each file: one that picks it, one
    /// that reads it, and one that finds its end.
    pub(super) reads: u64,
}

/// A line is put, and the main procedure ends.
pub(super) const PUTS: Row = Row {
    words: &["run", "source"],
    source: b"with Ada.Text_IO; use Ada.Text_IO;
procedure Main is
begin
   null;
   Put_Line (\"hi\");
end Main;
",
    script: b"",
    trace: b"0 t0 new main 15
0 t0 ready 15 tail
0 t0 run
7 t0 put hi
9 t0 done
9 end completed
",
    status: 0,
    reads: 3,
};

/// An interrupt comes while the main procedure waits, and the bound ends the run.
pub(super) const INTERRUPTED: Row = Row {
    words: &["run", "source", "script", "--ticks", "50"],
    source: b"procedure Main is
begin
   delay 1.0;
end Main;
",
    script: b"50 interrupt 3",
    trace: b"0 t0 new main 15
0 t0 ready 15 tail
0 t0 run
4 t0 block delay
4 idle
50 interrupt 3
50 end bound
",
    status: 3,
    reads: 6,
};
