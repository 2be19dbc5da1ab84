//! Entry queuing policies, and the longest queue (ISO/IEC 8652:2012, D.4, D.7).
ghost use Rattle.std.specs.Prelude.{◌≡◌, IfOk, Some, None, cond, codes};
ghost use Rattle.std.specs.Prelude.{false, option_map, unwrap_or};
ghost use Rattle.std.specs.Str.{bytes_eq};
ghost use Rattle.ada_image.specs.PoliciesOfImage.{is_longest, least_of, longest_in};
ghost use Rattle.ada_image.specs.PoliciesOfImage.{longest_in_arguments, longest_of, number_of};
ghost use Rattle.ada_image.specs.PoliciesOfImage.{queues_by_priority, queuing_of, word_of};
ghost use Rattle.ada_regions.specs.Words.{all_of};

use crate::arguments::{number_of, word_of};
use ada_tree::{Argument, Expression, Identifier, OneOrMore, Pragma};
use ann_base::NoMemory;
use profile_image::Queuing;

/// Whether an argument names Priority_Queuing (D.4).
fn is_priority_queuing(argument: &Argument<Expression>) -> bool
    ensures { result
        ≡ unwrap_or (option_map (λ w. bytes_eq w (codes "priority_queuing")) (word_of argument.now))
        false }
{
    match word_of(argument) {
        None => false,
        Some(word) => word == b"priority_queuing".as_slice(),
    }
}

/// Whether a pragma asks for Priority_Queuing (D.4).
#[tactic(auto, unfolding(ada_image::specs::PoliciesOfImage::queues_by_priority))]
fn queues_by_priority(pragma: &Pragma) -> bool
    ensures { result ≡ queues_by_priority pragma.now }
{
    pragma.name.text.as_slice() == b"queuing_policy".as_slice()
        && is_priority_queuing(&pragma.arguments.first)
}

/// The queuing policy of a source (D.4).
#[tactic(auto, unfolding(ada_image::specs::PoliciesOfImage::queuing_of))]
pub(crate) fn queuing_of(pragmas: &[Pragma]) -> Queuing
    ensures { result ≡ queuing_of pragmas.now }
{
    for pragma in pragmas {
        if queues_by_priority(pragma) {
            return Queuing::Priority;
        }
    }
    Queuing::Fifo
}

/// The lesser of two numbers, where they are there.
#[tactic(auto, unfolding(ada_image::specs::PoliciesOfImage::least_of))]
fn least_of(a: Option<u32>, b: Option<u32>) -> Option<u32>
    ensures { result ≡ least_of a b }
{
    match (a, b) {
        (None, b) => b,
        (Some(a), None) => Some(a),
        (Some(a), Some(b)) => { if a <= b { Some(a) } else { Some(b) } }
    }
}

/// Whether an argument is that of Max_Entry_Queue_Length (D.7).
pub fn is_longest(formal: &Option<Identifier>) -> bool
    ensures { result ≡ is_longest formal.now }
{
    match formal {
        None => false,
        Some(formal) => formal.text.as_slice() == b"max_entry_queue_length".as_slice(),
    }
}

/// The number that an argument gives Max_Entry_Queue_Length, if it gives one.
fn longest_in_argument(argument: &Argument<Expression>) -> Result<Option<u32>, NoMemory>
    ensures { IfOk result
        (λ longest.
        longest ≡ cond (is_longest argument.now.formal) (Some (number_of argument.now)) None) }
{
    if is_longest(&argument.formal) {
        Ok(Some(number_of(argument)?))
    } else {
        Ok(None)
    }
}

/// The least that arguments give, and what is given before them.
#[tactic(auto, using(crate::proofs::Longest::argument_laws, std::proofs::lemmas::Grind::common_steps))]
fn least_with(
    before: Option<u32>,
    arguments: &[Argument<Expression>],
) -> Result<Option<u32>, NoMemory>
    ensures { IfOk result
        (λ longest. longest ≡ least_of before (longest_in_arguments arguments.now)) }
{
    let mut least = before;
    for argument in arguments {
        least = least_of(least, longest_in_argument(argument)?);
    }
    Ok(least)
}

/// The least that all arguments of a pragma give.
#[tactic(auto, unfolding(ada_image::specs::PoliciesOfImage::longest_in_arguments))]
fn longest_in_arguments(
    arguments: &OneOrMore<Argument<Expression>>,
) -> Result<Option<u32>, NoMemory>
    ensures { IfOk result (λ longest. longest ≡ longest_in_arguments (all_of arguments.now)) }
{
    least_with(
        longest_in_argument(&arguments.first)?,
        arguments.others.as_slice(),
    )
}

/// The Max_Entry_Queue_Length of a pragma, if it gives one (D.7).
#[tactic(auto, unfolding(ada_image::specs::PoliciesOfImage::longest_in))]
fn longest_in(pragma: &Pragma) -> Result<Option<u32>, NoMemory>
    ensures { IfOk result (λ longest. longest ≡ longest_in pragma.now) }
{
    if pragma.name.text.as_slice() == b"restrictions".as_slice() {
        longest_in_arguments(&pragma.arguments)
    } else {
        Ok(None)
    }
}

/// The least Max_Entry_Queue_Length of a source (D.7).
#[tactic(auto, using(crate::proofs::Longest::pragma_laws, std::proofs::lemmas::Grind::common_steps))]
pub(crate) fn longest_of(pragmas: &[Pragma]) -> Result<Option<u32>, NoMemory>
    ensures { IfOk result (λ longest. longest ≡ longest_of pragmas.now) }
{
    let mut least = None;
    for pragma in pragmas {
        least = least_of(least, longest_in(pragma)?);
    }
    Ok(least)
}
