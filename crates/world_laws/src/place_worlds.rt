//! Who stands in the ready queues in the worlds that a run reaches: a law of the profile machine's
//! definitions alone. It is the contract of a function that does nothing.
ghost use Rattle.world_laws.specs.PlaceWorlds.{ReachedPlacesAreRight};

/// In every world that a run reaches the ready queues hold whoever is ready and nobody else, each
/// once, in order, at its active priority and with its deadline (ISO/IEC 8652:2012, D.2.1, D.2.6).
#[tactic(auto, using(crate::proofs::Places::PlaceWorlds::reached_places_are_right))]
pub fn reached_worlds_place_who_is_ready()
    ensures { ReachedPlacesAreRight }
{}
