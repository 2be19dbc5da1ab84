//! What two names denote (ISO/IEC 8652:2012, 6.3.1, 8.6).
ghost use Rattle.std.specs.Prelude.{◌≡◌};
ghost use Rattle.ada_legality.specs.Words.{same_entity_or_item, same_named};

use ada_entities::{denoted_by, last_part};
use ada_predefined::same_unit;
use ada_regions::{Denoted, Names};
use ada_tree::Name;

/// Both are one entity, or items of one unit with the same word.
fn same_entity_or_item(a: Option<Denoted>, b: Option<Denoted>, same_word: bool) -> bool
    ensures { result ≡ same_entity_or_item a b same_word }
{
    match a {
        None => false,
        Some(a) => match b {
            None => false,
            Some(b) => match a {
                Denoted::Entity(a) => match b {
                    Denoted::Entity(b) => a == b,
                    Denoted::Unit(_) => false,
                    Denoted::Item { .. } => false,
                },
                Denoted::Unit(_) => false,
                Denoted::Item { unit: a, .. } => match b {
                    Denoted::Entity(_) => false,
                    Denoted::Unit(_) => false,
                    Denoted::Item { unit: b, .. } => same_unit(a, b) && same_word,
                },
            },
        },
    }
}

/// Two names denote the same declaration.
#[tactic(auto, unfolding(ada_legality::specs::Words::same_named))]
pub fn same_named(names: &Names<'_>, a: &Name, b: &Name) -> bool
    ensures { result ≡ same_named names.now a.now b.now }
{
    let same_word = last_part(a).text.as_slice() == last_part(b).text.as_slice();
    same_entity_or_item(denoted_by(names, a), denoted_by(names, b), same_word)
}
