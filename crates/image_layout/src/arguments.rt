//! Arguments and the formals that they are for (ISO/IEC 8652:2012, 6.4.1).
ghost use Rattle.std.specs.Prelude.{◌≡◌, option_copied};
ghost use Rattle.ada_image.specs.ImageOfExpressions.{is_for, argument_from, first_argument};

use ada_tree::{Argument, Identifier};

/// Whether the argument at a place is for the formal with this number and name, given the name
/// before its arrow.
fn is_for(number: usize, name: &[u8], place: usize, formal: &Option<Identifier>) -> bool
    ensures { result ≡ is_for number name.now place formal.now }
{
    match formal {
        None => place == number,
        Some(formal) => formal.text.as_slice() == name,
    }
}

/// The argument for the formal with this number and name, if there is one.
#[tactic(auto, unfolding(ada_image::specs::ImageOfExpressions::argument_from))]
pub fn argument_from<'t, E>(
    number: usize,
    name: &[u8],
    arguments: &'t [Argument<E>],
) -> Option<&'t E>
    ensures { option_copied result ≡ argument_from number name.now 0 arguments.now }
{
    for (place, argument) in arguments.iter().enumerate() {
        if is_for(number, name, place, &argument.formal) {
            return Some(&argument.value);
        }
    }
    None
}

/// The first argument, if there is one.
pub fn first_argument<E>(arguments: &[Argument<E>]) -> Option<&E>
    ensures { option_copied result ≡ first_argument arguments.now }
{
    let argument = arguments.first()?;
    Some(&argument.value)
}
