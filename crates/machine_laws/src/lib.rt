//! Laws of the profile machine: theorems about its definitions alone, which hold of every program,
//! script and bound. Each is the contract of a function that does nothing; `specs/` states them.
//!
//! `proofs/Moves.antt` has the changes that steps of the machine are made of; `proofs/Kept/` has
//! one lemma for each step: it keeps what those changes keep. A further law of instants is one such
//! record: `proofs/TimeLemmas.antt` is the shortest. The programs and traces of `specs/Rows/` are
//! made by `tools/program_data.py` from `tools/law_rows/`; row 24's tests of worlds and handlers
//! are by hand. The row `representation` is proved in `proofs/RepresentationLemmas.antt`, since its
//! run is too long to compute.

#![tactic(auto)]

pub mod dispatching;
pub mod lines;
pub mod places;
pub mod rows;
pub mod runs;
pub mod time;
pub mod worlds;
