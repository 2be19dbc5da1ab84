//! Laws of images. `whole_images` has that nothing of a source is lost in what is made of it, and
//! nothing is added, and `built_laws` that what legality reads in a source has a form in an image.
#![tactic(auto)]

mod built_laws;
mod whole_images;

pub use built_laws::{
    expected_expressions_built, read_actuals_built, read_assignments_built, read_calls_built,
    read_conditions_built, read_delays_built, read_expressions_built, read_iterations_built,
    read_procedures_built, read_returns_built, read_selectors_built, read_sources_built,
};
pub use whole_images::{nothing_is_added, nothing_is_lost};
