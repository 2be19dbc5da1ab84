//! Worked rows whose runs are long.
ghost use Rattle.std.specs.Prelude.{◌≡◌, IsTrue};
ghost use Rattle.machine_laws.specs.Rows.Row24_1.{row_24_1_lines, row_24_1_trace, row_24_1_worlds, row_24_1_handlers};
ghost use Rattle.machine_laws.specs.Rows.RowRepresentation.{row_representation_lines, row_representation_trace};

/// Row 24 for one task, up to tick 10113.
#[tactic(auto, using(crate::specs::Rows::Row24_1::row_24_1_runs, crate::specs::Rows::Row24_1::row_24_1_keeps, crate::specs::Rows::Row24_1::row_24_1_releases))]
pub fn row_24_1()
    ensures runs { row_24_1_lines ≡ row_24_1_trace }
    ensures keeps { IsTrue row_24_1_worlds }
    ensures releases { IsTrue row_24_1_handlers }
{}

/// Row representation: a delay of 900 seconds, up to tick 1,000,000,000.
#[tactic(auto, using(crate::proofs::RepresentationLemmas::row_representation_runs))]
pub fn row_representation()
    ensures { row_representation_lines ≡ row_representation_trace }
{}
