//! Pragmas that name one policy, or a policy and two priorities (ISO/IEC 8652:2012, D.2.2, D.3,
//! D.4).
ghost use Rattle.std.specs.Prelude.{◌≡◌, ◌&&◌, [], ◌∷◌, codes, option_copied, IfOk};
ghost use Rattle.std.specs.List.{list_any};
ghost use Rattle.std.specs.Str.{bytes_eq};
ghost use Rattle.ada_regions.specs.Words.{all_of};
ghost use Rattle.ada_legality.specs.Pragmas.{is_one_word, is_policy, is_range_of_priorities};
ghost use Rattle.ada_legality.specs.Pragmas.{is_specific, policy_names, queuing_names, words_in};
ghost use Rattle.legality_pragmas.specs.Arguments.{only_word};

use crate::arguments::{number_in, word_in};
use ada_legality::Number;
use ada_tree::{Argument, Expression, OneOrMore, Pragma};
use ann_base::NoMemory;

/// The only argument of a pragma, where it is a word.
fn only_word(pragma: &Pragma) -> Option<&[u8]>
    ensures { option_copied result ≡ only_word (words_in pragma.now) }
{
    match pragma.arguments.others.as_slice() {
        [] => word_in(&pragma.arguments.first),
        _ => None,
    }
}

/// Whether it is the name of a dispatching policy.
fn is_policy_name(word: &[u8]) -> bool
    ensures { result ≡ list_any (bytes_eq word.now) policy_names }
{
    word == b"fifo_within_priorities".as_slice()
        || (word == b"round_robin_within_priorities".as_slice()
            || word == b"edf_across_priorities".as_slice())
}

/// Whether it is the name of a queuing policy.
fn is_queuing_name(word: &[u8]) -> bool
    ensures { result ≡ list_any (bytes_eq word.now) queuing_names }
{
    word == b"fifo_queuing".as_slice() || word == b"priority_queuing".as_slice()
}

/// Whether it is the name of the locking policy.
fn is_locking_name(word: &[u8]) -> bool
    ensures { result ≡ list_any (bytes_eq word.now) (codes "ceiling_locking" ∷ []) }
{
    word == b"ceiling_locking".as_slice()
}

/// Whether it is the name of the wide range of priorities.
fn is_wide_name(word: &[u8]) -> bool
    ensures { result ≡ list_any (bytes_eq word.now) (codes "wide" ∷ []) }
{
    word == b"wide".as_slice()
}

/// Whether a pragma's only argument is a dispatching policy.
#[tactic(auto, using(crate::proofs::Words::one_word))]
pub(crate) fn names_dispatching(pragma: &Pragma) -> bool
    ensures { result ≡ is_one_word policy_names (words_in pragma.now) }
{
    match only_word(pragma) {
        None => false,
        Some(word) => is_policy_name(word),
    }
}

/// Whether it is Ceiling_Locking.
#[tactic(auto, using(crate::proofs::Words::one_word))]
pub(crate) fn names_locking(pragma: &Pragma) -> bool
    ensures { result ≡ is_one_word (codes "ceiling_locking" ∷ []) (words_in pragma.now) }
{
    match only_word(pragma) {
        None => false,
        Some(word) => is_locking_name(word),
    }
}

/// Whether it is a queuing policy.
#[tactic(auto, using(crate::proofs::Words::one_word))]
pub(crate) fn names_queuing(pragma: &Pragma) -> bool
    ensures { result ≡ is_one_word queuing_names (words_in pragma.now) }
{
    match only_word(pragma) {
        None => false,
        Some(word) => is_queuing_name(word),
    }
}

/// Whether it is Wide.
#[tactic(auto, using(crate::proofs::Words::one_word))]
pub(crate) fn names_wide(pragma: &Pragma) -> bool
    ensures { result ≡ is_one_word (codes "wide" ∷ []) (words_in pragma.now) }
{
    match only_word(pragma) {
        None => false,
        Some(word) => is_wide_name(word),
    }
}

/// Whether an argument is a dispatching policy.
fn is_policy(argument: &Argument<Expression>) -> bool
    ensures { result ≡ is_policy argument.now }
{
    match word_in(argument) {
        None => false,
        Some(word) => is_policy_name(word),
    }
}

/// Whether two priorities stand in order, where the last Priority is given.
fn is_range_of_priorities(last: u8, low: Option<Number>, high: Option<Number>) -> bool
    ensures { result ≡ is_range_of_priorities last low high }
{
    match low {
        None => false,
        Some(low) => match high {
            None => false,
            Some(high) => {
                Number::of(0).is_at_most(low)
                    && (low.is_at_most(high) && high.is_at_most(Number::of(i64::from(last) + 1)))
            }
        },
    }
}

/// Whether an argument is a policy, and two numbers are priorities in order.
fn is_specific_with(
    last: u8,
    policy: &Argument<Expression>,
    low: Option<Number>,
    high: Option<Number>,
) -> bool
    ensures { result ≡ is_policy policy.now && is_range_of_priorities last low high }
{
    is_policy(policy) && is_range_of_priorities(last, low, high)
}

/// Whether arguments are a policy and two priorities.
#[tactic(auto, unfolding(ada_legality::specs::Pragmas::is_specific))]
pub(crate) fn is_specific(
    last: u8,
    arguments: &OneOrMore<Argument<Expression>>,
) -> Result<bool, NoMemory>
    ensures { IfOk result (λ specific. specific ≡ is_specific last (all_of arguments.now)) }
{
    match arguments.others.as_slice() {
        [low, high] => {
            let low = number_in(low)?;
            let high = number_in(high)?;
            Ok(is_specific_with(last, &arguments.first, low, high))
        }
        _ => Ok(false),
    }
}
