//! Restrictions that are in force (ISO/IEC 8652:2012, 13.12, D.7).
ghost use Rattle.std.specs.Prelude.{◌≡◌, codes, is_some, IfOk};
ghost use Rattle.std.specs.List.{list_any};
ghost use Rattle.ada_image.specs.PoliciesOfImage.{is_longest, longest_of};
ghost use Rattle.ada_regions.specs.Words.{all_of};
ghost use Rattle.ada_legality.specs.Pragmas.{is_pragma_named};
ghost use Rattle.ada_legality.specs.InForce.{gives_restriction, is_given, is_named_as, least_limit};
ghost use Rattle.ada_legality.specs.InForce.{least_limit_in, limit_in, restriction_arguments};
ghost use Rattle.legality_pragmas.specs.Restrictions.{gives, gives_longest};
ghost use Rattle.legality_pragmas.specs.Restrictions.{least_before, least_with};

use crate::arguments::{number_in, word_in};
use ada_legality::Number;
use ada_tree::{Argument, Expression, OneOrMore, Pragma};
use ann_base::NoMemory;
use image_policies::is_longest;

/// Whether it is a pragma Restrictions.
fn is_restrictions(pragma: &Pragma) -> bool
    ensures { result ≡ is_pragma_named (codes "restrictions") pragma.now }
{
    pragma.name.text.as_slice() == b"restrictions".as_slice()
}

/// Whether an argument gives this restriction.
#[tactic(auto, unfolding(ada_legality::specs::InForce::gives_restriction))]
fn gives_restriction(name: &[u8], argument: &Argument<Expression>) -> bool
    ensures { result ≡ gives_restriction name.now argument.now }
{
    match word_in(argument) {
        None => false,
        Some(word) => name == word,
    }
}

fn any_other_gives(name: &[u8], others: &[Argument<Expression>]) -> bool
    ensures { result ≡ list_any (gives_restriction name.now) others.now }
{
    others
        .iter()
        .any(|argument| gives_restriction(name, argument))
}

fn any_gives(name: &[u8], arguments: &OneOrMore<Argument<Expression>>) -> bool
    ensures { result ≡ list_any (gives_restriction name.now) (all_of arguments.now) }
{
    gives_restriction(name, &arguments.first) || any_other_gives(name, arguments.others.as_slice())
}

/// Whether a pragma gives this restriction.
fn gives(name: &[u8], pragma: &Pragma) -> bool
    ensures { result ≡ gives name.now pragma.now }
{
    is_restrictions(pragma) && any_gives(name, &pragma.arguments)
}

fn any_pragma_gives(name: &[u8], pragmas: &[Pragma]) -> bool
    ensures { result ≡ list_any (gives name.now) pragmas.now }
{
    pragmas.iter().any(|pragma| gives(name, pragma))
}

/// Whether these pragmas give a restriction.
#[tactic(auto, using(crate::proofs::Given::given_is))]
pub(crate) fn is_given(pragmas: &[Pragma], name: &[u8]) -> bool
    ensures { result ≡ is_given (restriction_arguments pragmas.now) name.now }
{
    any_pragma_gives(name, pragmas)
}

/// Whether an argument has this name.
fn is_named_as(name: &[u8], argument: &Argument<Expression>) -> bool
    ensures { result ≡ is_named_as name.now argument.now }
{
    match &argument.formal {
        None => false,
        Some(formal) => formal.text.as_slice() == name,
    }
}

/// The limit that an argument gives.
#[tactic(auto, unfolding(ada_legality::specs::InForce::limit_in))]
fn limit_in(name: &[u8], argument: &Argument<Expression>) -> Result<Option<Number>, NoMemory>
    ensures { IfOk result (λ limit. limit ≡ limit_in name.now argument.now) }
{
    if is_named_as(name, argument) {
        number_in(argument)
    } else {
        Ok(None)
    }
}

/// The least of two limits.
fn least_limit(a: Option<Number>, b: Option<Number>) -> Option<Number>
    ensures { result ≡ least_limit a b }
{
    match (a, b) {
        (None, b) => b,
        (Some(a), None) => Some(a),
        (Some(a), Some(b)) => { if a.is_at_most(b) { Some(a) } else { Some(b) } }
    }
}

/// The least of a limit that an argument gives, and a later one.
fn least_here(
    name: &[u8],
    argument: &Argument<Expression>,
    later: Option<Number>,
) -> Result<Option<Number>, NoMemory>
    ensures { IfOk result (λ least. least ≡ least_limit (limit_in name.now argument.now) later) }
{
    let limit = limit_in(name, argument)?;
    Ok(least_limit(limit, later))
}

/// The least of the limits that arguments give, and a later one. The last argument's is looked at
/// first.
#[tactic(auto, using(crate::proofs::Limits::argument_laws))]
fn least_with(
    name: &[u8],
    arguments: &[Argument<Expression>],
    later: Option<Number>,
) -> Result<Option<Number>, NoMemory>
    ensures { IfOk result (λ least. least ≡ least_with name.now arguments.now later) }
{
    let mut least = later;
    let mut place = arguments.len();
    while 0 < place {
        place -= 1;
        least = least_here(name, &arguments[place], least)?;
    }
    Ok(least)
}

/// The least of the limits that a pragma gives, and a later one.
fn least_before(
    name: &[u8],
    pragma: &Pragma,
    later: Option<Number>,
) -> Result<Option<Number>, NoMemory>
    ensures { IfOk result (λ least. least ≡ least_before name.now pragma.now later) }
{
    if is_restrictions(pragma) {
        let least = least_with(name, pragma.arguments.others.as_slice(), later)?;
        least_here(name, &pragma.arguments.first, least)
    } else {
        Ok(later)
    }
}

/// The least limit that these pragmas give. The last pragma's is looked at first.
#[tactic(auto, using(crate::proofs::Limits::pragma_laws))]
pub(crate) fn least_limit_in(pragmas: &[Pragma], name: &[u8]) -> Result<Option<Number>, NoMemory>
    ensures { IfOk result
        (λ least. least ≡ least_limit_in name.now (restriction_arguments pragmas.now)) }
{
    let mut least = None;
    let mut place = pragmas.len();
    while 0 < place {
        place -= 1;
        least = least_before(name, &pragmas[place], least)?;
    }
    Ok(least)
}

fn any_other_longest(others: &[Argument<Expression>]) -> bool
    ensures { result ≡ list_any (λ a. is_longest a.formal) others.now }
{
    others.iter().any(|argument| is_longest(&argument.formal))
}

fn any_longest(arguments: &OneOrMore<Argument<Expression>>) -> bool
    ensures { result ≡ list_any (λ a. is_longest a.formal) (all_of arguments.now) }
{
    is_longest(&arguments.first.formal) || any_other_longest(arguments.others.as_slice())
}

/// Whether a pragma gives Max_Entry_Queue_Length (D.7).
fn gives_longest(pragma: &Pragma) -> bool
    ensures { result ≡ gives_longest pragma.now }
{
    is_restrictions(pragma) && any_longest(&pragma.arguments)
}

fn any_pragma_longest(pragmas: &[Pragma]) -> bool
    ensures { result ≡ list_any gives_longest pragmas.now }
{
    pragmas.iter().any(|pragma| gives_longest(pragma))
}

/// Whether these pragmas give Max_Entry_Queue_Length (D.7).
#[tactic(auto, using(crate::proofs::Given::longest_is))]
pub(crate) fn has_longest(pragmas: &[Pragma]) -> bool
    ensures { result ≡ is_some (longest_of pragmas.now) }
{
    any_pragma_longest(pragmas)
}
