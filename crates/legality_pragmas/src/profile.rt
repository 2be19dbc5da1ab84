//! Pragmas of the profile, with their arguments (ISO/IEC 8652:2012, 2.8, 13.12, D.2.2, D.3, D.4,
//! D.7).
ghost use Rattle.std.specs.Prelude.{◌≡◌, ◌&&◌, pos, IfOk};
ghost use Rattle.profile_image.specs.declared.limits.TheConstants.{INTEGER_LAST};
ghost use Rattle.std.specs.List.{list_all, list_any};
ghost use Rattle.std.specs.Str.{bytes_eq};
ghost use Rattle.ada_regions.specs.Words.{all_of};
ghost use Rattle.ada_legality.specs.Pragmas.{is_numbered_restriction, is_pragma_of_profile};
ghost use Rattle.ada_legality.specs.Pragmas.{is_restriction, restrictions_with_number};
ghost use Rattle.ada_legality.specs.Pragmas.{restrictions_without_number, word_in};
ghost use Rattle.ada_legality.specs.Words.{lies_between};
ghost use Rattle.legality_pragmas.specs.Arguments.{is_among};

use crate::arguments::{number_in, word_in};
use crate::policies::{is_specific, names_dispatching, names_locking, names_queuing, names_wide};
use ada_legality::Number;
use ada_tree::{Argument, Expression, Identifier, OneOrMore, Pragma};
use ann_base::NoMemory;
use legality_choices::lies_between;
use profile_image::INTEGER_LAST;

/// Whether it is the name of a restriction that forbids.
fn is_forbidding(word: &[u8]) -> bool
    ensures { result ≡ list_any (bytes_eq word.now) restrictions_without_number }
{
    word == b"no_task_hierarchy".as_slice()
        || (word == b"no_abort_statements".as_slice()
            || (word == b"no_dynamic_priorities".as_slice()
                || (word == b"no_relative_delay".as_slice()
                    || (word == b"no_select_statements".as_slice()
                        || (word == b"no_terminate_alternatives".as_slice()
                            || word == b"simple_barriers".as_slice())))))
}

/// Whether it is the name of a restriction that limits.
fn is_limiting(word: &[u8]) -> bool
    ensures { result ≡ list_any (bytes_eq word.now) restrictions_with_number }
{
    word == b"max_task_entries".as_slice()
        || (word == b"max_protected_entries".as_slice()
            || (word == b"max_select_alternatives".as_slice()
                || word == b"max_entry_queue_length".as_slice()))
}

/// Whether a number that is known is one that limits.
fn is_limit(number: Option<Number>) -> bool
    ensures { result ≡ lies_between (pos 0) INTEGER_LAST number }
{
    lies_between(0, i64::from(INTEGER_LAST), number)
}

/// Whether a restriction of this name has such a number.
fn is_limited_by(name: &Identifier, number: Option<Number>) -> bool
    ensures { result
        ≡ list_any (bytes_eq name.now.text) restrictions_with_number
        && lies_between (pos 0) INTEGER_LAST number }
{
    is_limiting(name.text.as_slice()) && is_limit(number)
}

/// Whether an argument is a restriction with its number.
fn is_numbered_restriction(
    argument: &Argument<Expression>,
    name: &Identifier,
) -> Result<bool, NoMemory>
    ensures { IfOk result (λ is. is ≡ is_numbered_restriction argument.now name.now) }
{
    let number = number_in(argument)?;
    Ok(is_limited_by(name, number))
}

/// Whether an argument is a restriction that forbids.
fn is_forbidding_argument(argument: &Argument<Expression>) -> bool
    ensures { result ≡ is_among restrictions_without_number (word_in argument.now) }
{
    match word_in(argument) {
        None => false,
        Some(word) => is_forbidding(word),
    }
}

/// Whether an argument is a restriction of the profile.
#[tactic(auto, unfolding(ada_legality::specs::Pragmas::is_restriction))]
fn is_restriction(argument: &Argument<Expression>) -> Result<bool, NoMemory>
    ensures { IfOk result (λ is. is ≡ is_restriction argument.now) }
{
    match &argument.formal {
        Some(name) => is_numbered_restriction(argument, name),
        None => Ok(is_forbidding_argument(argument)),
    }
}

fn all_others(arguments: &[Argument<Expression>]) -> Result<bool, NoMemory>
    ensures { IfOk result (λ all. all ≡ list_all is_restriction arguments.now) }
{
    for argument in arguments {
        if !is_restriction(argument)? {
            return Ok(false);
        }
    }
    Ok(true)
}

/// Whether all arguments are restrictions of the profile.
fn all_restrictions(arguments: &OneOrMore<Argument<Expression>>) -> Result<bool, NoMemory>
    ensures { IfOk result (λ all. all ≡ list_all is_restriction (all_of arguments.now)) }
{
    if is_restriction(&arguments.first)? {
        all_others(arguments.others.as_slice())
    } else {
        Ok(false)
    }
}

/// Whether a pragma is one of the profile with its arguments, where the last Priority is given.
#[tactic(auto, unfolding(ada_legality::specs::Pragmas::is_pragma_of_profile, ada_legality::specs::Pragmas::is_of_profile))]
pub(crate) fn is_pragma_of_profile(last: u8, pragma: &Pragma) -> Result<bool, NoMemory>
    ensures { IfOk result (λ is. is ≡ is_pragma_of_profile last pragma.now) }
{
    let name = pragma.name.text.as_slice();
    if name == b"task_dispatching_policy".as_slice() {
        Ok(names_dispatching(pragma))
    } else if name == b"priority_specific_dispatching".as_slice() {
        is_specific(last, &pragma.arguments)
    } else if name == b"locking_policy".as_slice() {
        Ok(names_locking(pragma))
    } else if name == b"queuing_policy".as_slice() {
        Ok(names_queuing(pragma))
    } else if name == b"restrictions".as_slice() {
        all_restrictions(&pragma.arguments)
    } else if name == b"priority_range".as_slice() {
        Ok(names_wide(pragma))
    } else {
        Ok(false)
    }
}
