//! Names of predefined functions (ISO/IEC 8652:2012, 6.4).
ghost use Rattle.std.specs.Prelude.{◌≡◌, cond};
ghost use Rattle.ada_image.specs.ImageOfExpressions.{calls_predefined, is_operation};

use ada_regions::{Denoted, Predefined};

fn is_operation(item: Predefined) -> bool
    ensures { result ≡ is_operation item }
{
    match item {
        Predefined::Operation(_) => true,
        _ => false,
    }
}

/// Whether a name that denotes this calls a predefined function.
#[tactic(auto, unfolding(ada_image::specs::ImageOfExpressions::calls_predefined))]
fn calls_predefined(denoted: Option<Denoted>) -> bool
    ensures { result ≡ calls_predefined denoted }
{
    match denoted {
        None => false,
        Some(Denoted::Entity(_)) => false,
        Some(Denoted::Unit(_)) => false,
        Some(Denoted::Item { item, .. }) => is_operation(item),
    }
}

/// What a name without an attribute counts itself.
pub fn called_counts(denoted: Option<Denoted>) -> u32
    ensures { result ≡ cond (calls_predefined denoted) 1 0 }
{
    if calls_predefined(denoted) { 1 } else { 0 }
}
