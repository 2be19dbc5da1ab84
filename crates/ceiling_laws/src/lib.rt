//! Ceilings of protected objects (ISO/IEC 8652:2012, D.3): laws of the profile machine's
//! definitions alone, which hold of every program. Each is the contract of a function that does
//! nothing. `instant_laws` has what an instant and its parts keep, `ceiling_runs` what the lines of
//! every run tell, and `ceiling_places` where they show somebody, and with it that every run keeps
//! the law of ceilings.
#![tactic(auto)]

mod ceiling_places;
mod ceiling_runs;
mod instant_laws;

pub use ceiling_places::{
    effects_place_by_the_last_line, nothing_beside_an_effect_places_above,
    nothing_beside_an_effect_shows_who_waits, runs_keep_the_law_of_ceilings,
    runs_place_nobody_above, runs_show_who_is_ready, steps_of_effects_place_nobody_above,
    steps_place_at_the_active_priority,
};
pub use ceiling_runs::{
    agent_keeps_its_base, ceilings_and_bases_are_told, deadlines_are_of_tasks,
    instants_keep_the_law_of_ceilings, places_keep_the_law_of_ceilings, who_acts_is_shown,
};
pub use instant_laws::{
    changes_are_followed, enters_keep_ceilings, examples_are_told, interrupts_have_no_deadline,
    lets_in_below_ceilings, levels_last_from_choice_to_effect, objects_are_told,
};
