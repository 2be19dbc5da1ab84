//! The ready queues and the lines.
ghost use Rattle.machine_laws.specs.PlaceLaws.{OpeningsPlaceByLines};
ghost use Rattle.machine_laws.specs.PlaceLaws.{InstantsPlaceByLines, TocksPlaceNobody};
ghost use Rattle.machine_laws.specs.PlaceLaws.{NobodyIsPlacedTwice, PlacesAreInOrder};

/// The ready queues behind the opening and behind an instant are those before it, changed as its
/// lines say; a tock moves nobody.
#[tactic(auto, using(crate::proofs::PlaceLemmas::openings_place_by_lines, crate::proofs::PlaceLemmas::instants_place_by_lines, crate::proofs::PlaceLemmas::tocks_place_nobody))]
pub fn lines_place()
    ensures openings { OpeningsPlaceByLines }
    ensures instants { InstantsPlaceByLines }
    ensures tocks { TocksPlaceNobody }
{}

/// In every world that a run reaches nobody is in the ready queues twice, and they stand by level,
/// and of one level by deadline.
#[tactic(auto, using(crate::proofs::PlaceLemmas::nobody_is_placed_twice, crate::proofs::PlaceLemmas::places_are_in_order))]
pub fn ready_queues_are_in_order()
    ensures once { NobodyIsPlacedTwice }
    ensures order { PlacesAreInOrder }
{}
