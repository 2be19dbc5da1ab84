//! Worked rows that are known by a number.
ghost use Rattle.std.specs.Prelude.{◌≡◌, IsTrue};
ghost use Rattle.machine_rows.specs.Rows.Row01.{row_01_lines, row_01_trace, row_01_worlds, row_01_handlers};
ghost use Rattle.machine_rows.specs.Rows.Row03.{row_03_lines, row_03_trace, row_03_worlds, row_03_handlers};
ghost use Rattle.machine_rows.specs.Rows.Row04.{row_04_lines, row_04_trace, row_04_worlds, row_04_handlers};
ghost use Rattle.machine_rows.specs.Rows.Row05a.{row_05a_lines, row_05a_trace, row_05a_worlds, row_05a_handlers};
ghost use Rattle.machine_rows.specs.Rows.Row05b.{row_05b_lines, row_05b_trace, row_05b_worlds, row_05b_handlers};
ghost use Rattle.machine_rows.specs.Rows.Row05c.{row_05c_lines, row_05c_trace, row_05c_worlds, row_05c_handlers};
ghost use Rattle.machine_rows.specs.Rows.Row06.{row_06_lines, row_06_trace, row_06_worlds, row_06_handlers};
ghost use Rattle.machine_rows.specs.Rows.Row08a.{row_08a_lines, row_08a_trace, row_08a_worlds, row_08a_handlers};
ghost use Rattle.machine_rows.specs.Rows.Row08b.{row_08b_lines, row_08b_trace, row_08b_worlds, row_08b_handlers};
ghost use Rattle.machine_rows.specs.Rows.Row09a.{row_09a_lines, row_09a_trace, row_09a_worlds, row_09a_handlers};
ghost use Rattle.machine_rows.specs.Rows.Row09b.{row_09b_lines, row_09b_trace, row_09b_worlds, row_09b_handlers};
ghost use Rattle.machine_rows.specs.Rows.Row10.{row_10_lines, row_10_trace, row_10_worlds, row_10_handlers};
ghost use Rattle.machine_rows.specs.Rows.Row11.{row_11_lines, row_11_trace, row_11_worlds, row_11_handlers};
ghost use Rattle.machine_rows.specs.Rows.Row12.{row_12_lines, row_12_trace, row_12_worlds, row_12_handlers};
ghost use Rattle.machine_rows.specs.Rows.Row13.{row_13_lines, row_13_trace, row_13_worlds, row_13_handlers};
ghost use Rattle.machine_rows.specs.Rows.Row14a.{row_14a_lines, row_14a_trace, row_14a_worlds, row_14a_handlers};
ghost use Rattle.machine_rows.specs.Rows.Row14b.{row_14b_lines, row_14b_trace};
ghost use Rattle.machine_rows.specs.Rows.Row15a.{row_15a_lines, row_15a_trace, row_15a_worlds, row_15a_handlers};
ghost use Rattle.machine_rows.specs.Rows.Row15b.{row_15b_lines, row_15b_trace, row_15b_worlds, row_15b_handlers};
ghost use Rattle.machine_rows.specs.Rows.Row15c.{row_15c_lines, row_15c_trace, row_15c_worlds, row_15c_handlers};
ghost use Rattle.machine_rows.specs.Rows.Row15d.{row_15d_lines, row_15d_trace, row_15d_worlds, row_15d_handlers};
ghost use Rattle.machine_rows.specs.Rows.Row16.{row_16_lines, row_16_trace, row_16_worlds, row_16_handlers};
ghost use Rattle.machine_rows.specs.Rows.Row19.{row_19_lines, row_19_trace};
ghost use Rattle.machine_rows.specs.Rows.Row20a.{row_20a_lines, row_20a_trace, row_20a_worlds, row_20a_handlers};
ghost use Rattle.machine_rows.specs.Rows.Row20b.{row_20b_lines, row_20b_trace, row_20b_worlds, row_20b_handlers};
ghost use Rattle.machine_rows.specs.Rows.Row20c.{row_20c_lines, row_20c_trace, row_20c_worlds, row_20c_handlers};
ghost use Rattle.machine_rows.specs.Rows.Row23.{row_23_lines, row_23_trace};
ghost use Rattle.machine_rows.specs.Rows.Row23_interrupt.{row_23_interrupt_lines, row_23_interrupt_trace};
ghost use Rattle.machine_rows.specs.Rows.Row25.{row_25_lines, row_25_trace, row_25_worlds, row_25_handlers};

/// Row 01, up to tick 10.
#[tactic(auto, using(crate::specs::Rows::Row01::row_01_runs, crate::specs::Rows::Row01::row_01_keeps, crate::specs::Rows::Row01::row_01_releases))]
pub fn row_01()
    ensures runs { row_01_lines ≡ row_01_trace }
    ensures keeps { IsTrue row_01_worlds }
    ensures releases { IsTrue row_01_handlers }
{}

/// Row 03, up to tick 36.
#[tactic(auto, using(crate::specs::Rows::Row03::row_03_runs, crate::specs::Rows::Row03::row_03_keeps, crate::specs::Rows::Row03::row_03_releases))]
pub fn row_03()
    ensures runs { row_03_lines ≡ row_03_trace }
    ensures keeps { IsTrue row_03_worlds }
    ensures releases { IsTrue row_03_handlers }
{}

/// Row 04, up to tick 15.
#[tactic(auto, using(crate::specs::Rows::Row04::row_04_runs, crate::specs::Rows::Row04::row_04_keeps, crate::specs::Rows::Row04::row_04_releases))]
pub fn row_04()
    ensures runs { row_04_lines ≡ row_04_trace }
    ensures keeps { IsTrue row_04_worlds }
    ensures releases { IsTrue row_04_handlers }
{}

/// Row 05a, up to tick 8.
#[tactic(auto, using(crate::specs::Rows::Row05a::row_05a_runs, crate::specs::Rows::Row05a::row_05a_keeps, crate::specs::Rows::Row05a::row_05a_releases))]
pub fn row_05a()
    ensures runs { row_05a_lines ≡ row_05a_trace }
    ensures keeps { IsTrue row_05a_worlds }
    ensures releases { IsTrue row_05a_handlers }
{}

/// Row 05b, up to tick 11.
#[tactic(auto, using(crate::specs::Rows::Row05b::row_05b_runs, crate::specs::Rows::Row05b::row_05b_keeps, crate::specs::Rows::Row05b::row_05b_releases))]
pub fn row_05b()
    ensures runs { row_05b_lines ≡ row_05b_trace }
    ensures keeps { IsTrue row_05b_worlds }
    ensures releases { IsTrue row_05b_handlers }
{}

/// Row 05c, up to tick 11.
#[tactic(auto, using(crate::specs::Rows::Row05c::row_05c_runs, crate::specs::Rows::Row05c::row_05c_keeps, crate::specs::Rows::Row05c::row_05c_releases))]
pub fn row_05c()
    ensures runs { row_05c_lines ≡ row_05c_trace }
    ensures keeps { IsTrue row_05c_worlds }
    ensures releases { IsTrue row_05c_handlers }
{}

/// Row 06, up to tick 45.
#[tactic(auto, using(crate::specs::Rows::Row06::row_06_runs, crate::specs::Rows::Row06::row_06_keeps, crate::specs::Rows::Row06::row_06_releases))]
pub fn row_06()
    ensures runs { row_06_lines ≡ row_06_trace }
    ensures keeps { IsTrue row_06_worlds }
    ensures releases { IsTrue row_06_handlers }
{}

/// Row 08a, up to tick 22.
#[tactic(auto, using(crate::specs::Rows::Row08a::row_08a_runs, crate::specs::Rows::Row08a::row_08a_keeps, crate::specs::Rows::Row08a::row_08a_releases))]
pub fn row_08a()
    ensures runs { row_08a_lines ≡ row_08a_trace }
    ensures keeps { IsTrue row_08a_worlds }
    ensures releases { IsTrue row_08a_handlers }
{}

/// Row 08b, up to tick 18.
#[tactic(auto, using(crate::specs::Rows::Row08b::row_08b_runs, crate::specs::Rows::Row08b::row_08b_keeps, crate::specs::Rows::Row08b::row_08b_releases))]
pub fn row_08b()
    ensures runs { row_08b_lines ≡ row_08b_trace }
    ensures keeps { IsTrue row_08b_worlds }
    ensures releases { IsTrue row_08b_handlers }
{}

/// Row 09a, up to tick 22.
#[tactic(auto, using(crate::specs::Rows::Row09a::row_09a_runs, crate::specs::Rows::Row09a::row_09a_keeps, crate::specs::Rows::Row09a::row_09a_releases))]
pub fn row_09a()
    ensures runs { row_09a_lines ≡ row_09a_trace }
    ensures keeps { IsTrue row_09a_worlds }
    ensures releases { IsTrue row_09a_handlers }
{}

/// Row 09b, up to tick 22.
#[tactic(auto, using(crate::specs::Rows::Row09b::row_09b_runs, crate::specs::Rows::Row09b::row_09b_keeps, crate::specs::Rows::Row09b::row_09b_releases))]
pub fn row_09b()
    ensures runs { row_09b_lines ≡ row_09b_trace }
    ensures keeps { IsTrue row_09b_worlds }
    ensures releases { IsTrue row_09b_handlers }
{}

/// Row 10, up to tick 17.
#[tactic(auto, using(crate::specs::Rows::Row10::row_10_runs, crate::specs::Rows::Row10::row_10_keeps, crate::specs::Rows::Row10::row_10_releases))]
pub fn row_10()
    ensures runs { row_10_lines ≡ row_10_trace }
    ensures keeps { IsTrue row_10_worlds }
    ensures releases { IsTrue row_10_handlers }
{}

/// Row 11, up to tick 35.
#[tactic(auto, using(crate::specs::Rows::Row11::row_11_runs, crate::specs::Rows::Row11::row_11_keeps, crate::specs::Rows::Row11::row_11_releases))]
pub fn row_11()
    ensures runs { row_11_lines ≡ row_11_trace }
    ensures keeps { IsTrue row_11_worlds }
    ensures releases { IsTrue row_11_handlers }
{}

/// Row 12, up to tick 38.
#[tactic(auto, using(crate::specs::Rows::Row12::row_12_runs, crate::specs::Rows::Row12::row_12_keeps, crate::specs::Rows::Row12::row_12_releases))]
pub fn row_12()
    ensures runs { row_12_lines ≡ row_12_trace }
    ensures keeps { IsTrue row_12_worlds }
    ensures releases { IsTrue row_12_handlers }
{}

/// Row 13, up to tick 24.
#[tactic(auto, using(crate::specs::Rows::Row13::row_13_runs, crate::specs::Rows::Row13::row_13_keeps, crate::specs::Rows::Row13::row_13_releases))]
pub fn row_13()
    ensures runs { row_13_lines ≡ row_13_trace }
    ensures keeps { IsTrue row_13_worlds }
    ensures releases { IsTrue row_13_handlers }
{}

/// Row 14a, up to tick 12.
#[tactic(auto, using(crate::specs::Rows::Row14a::row_14a_runs, crate::specs::Rows::Row14a::row_14a_keeps, crate::specs::Rows::Row14a::row_14a_releases))]
pub fn row_14a()
    ensures runs { row_14a_lines ≡ row_14a_trace }
    ensures keeps { IsTrue row_14a_worlds }
    ensures releases { IsTrue row_14a_handlers }
{}

/// Row 14b, up to tick 501.
#[tactic(auto, using(crate::specs::Rows::Row14b::row_14b_runs))]
pub fn row_14b()
    ensures { row_14b_lines ≡ row_14b_trace }
{}

/// Row 15a, up to tick 1.
#[tactic(auto, using(crate::specs::Rows::Row15a::row_15a_runs, crate::specs::Rows::Row15a::row_15a_keeps, crate::specs::Rows::Row15a::row_15a_releases))]
pub fn row_15a()
    ensures runs { row_15a_lines ≡ row_15a_trace }
    ensures keeps { IsTrue row_15a_worlds }
    ensures releases { IsTrue row_15a_handlers }
{}

/// Row 15b, up to tick 8.
#[tactic(auto, using(crate::specs::Rows::Row15b::row_15b_runs, crate::specs::Rows::Row15b::row_15b_keeps, crate::specs::Rows::Row15b::row_15b_releases))]
pub fn row_15b()
    ensures runs { row_15b_lines ≡ row_15b_trace }
    ensures keeps { IsTrue row_15b_worlds }
    ensures releases { IsTrue row_15b_handlers }
{}

/// Row 15c, up to tick 9.
#[tactic(auto, using(crate::specs::Rows::Row15c::row_15c_runs, crate::specs::Rows::Row15c::row_15c_keeps, crate::specs::Rows::Row15c::row_15c_releases))]
pub fn row_15c()
    ensures runs { row_15c_lines ≡ row_15c_trace }
    ensures keeps { IsTrue row_15c_worlds }
    ensures releases { IsTrue row_15c_handlers }
{}

/// Row 15d, up to tick 50.
#[tactic(auto, using(crate::specs::Rows::Row15d::row_15d_runs, crate::specs::Rows::Row15d::row_15d_keeps, crate::specs::Rows::Row15d::row_15d_releases))]
pub fn row_15d()
    ensures runs { row_15d_lines ≡ row_15d_trace }
    ensures keeps { IsTrue row_15d_worlds }
    ensures releases { IsTrue row_15d_handlers }
{}

/// Row 16, up to tick 32.
#[tactic(auto, using(crate::specs::Rows::Row16::row_16_runs, crate::specs::Rows::Row16::row_16_keeps, crate::specs::Rows::Row16::row_16_releases))]
pub fn row_16()
    ensures runs { row_16_lines ≡ row_16_trace }
    ensures keeps { IsTrue row_16_worlds }
    ensures releases { IsTrue row_16_handlers }
{}

/// Row 19, up to tick 3001.
#[tactic(auto, using(crate::specs::Rows::Row19::row_19_runs))]
pub fn row_19()
    ensures { row_19_lines ≡ row_19_trace }
{}

/// Row 20a, up to tick 8.
#[tactic(auto, using(crate::specs::Rows::Row20a::row_20a_runs, crate::specs::Rows::Row20a::row_20a_keeps, crate::specs::Rows::Row20a::row_20a_releases))]
pub fn row_20a()
    ensures runs { row_20a_lines ≡ row_20a_trace }
    ensures keeps { IsTrue row_20a_worlds }
    ensures releases { IsTrue row_20a_handlers }
{}

/// Row 20b, up to tick 10.
#[tactic(auto, using(crate::specs::Rows::Row20b::row_20b_runs, crate::specs::Rows::Row20b::row_20b_keeps, crate::specs::Rows::Row20b::row_20b_releases))]
pub fn row_20b()
    ensures runs { row_20b_lines ≡ row_20b_trace }
    ensures keeps { IsTrue row_20b_worlds }
    ensures releases { IsTrue row_20b_handlers }
{}

/// Row 20c, up to tick 9.
#[tactic(auto, using(crate::specs::Rows::Row20c::row_20c_runs, crate::specs::Rows::Row20c::row_20c_keeps, crate::specs::Rows::Row20c::row_20c_releases))]
pub fn row_20c()
    ensures runs { row_20c_lines ≡ row_20c_trace }
    ensures keeps { IsTrue row_20c_worlds }
    ensures releases { IsTrue row_20c_handlers }
{}

/// Row 23, up to tick 10300.
#[tactic(auto, using(crate::specs::Rows::Row23::row_23_runs))]
pub fn row_23()
    ensures { row_23_lines ≡ row_23_trace }
{}

/// Row 23.interrupt, up to tick 600.
#[tactic(auto, using(crate::specs::Rows::Row23_interrupt::row_23_interrupt_runs))]
pub fn row_23_interrupt()
    ensures { row_23_interrupt_lines ≡ row_23_interrupt_trace }
{}

/// Row 25, up to tick 106.
#[tactic(auto, using(crate::specs::Rows::Row25::row_25_runs, crate::specs::Rows::Row25::row_25_keeps, crate::specs::Rows::Row25::row_25_releases))]
pub fn row_25()
    ensures runs { row_25_lines ≡ row_25_trace }
    ensures keeps { IsTrue row_25_worlds }
    ensures releases { IsTrue row_25_handlers }
{}
