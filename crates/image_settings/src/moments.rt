//! The moment or the span that Set_Handler of a timing event or a timer is given: a span is
//! In_Time, a moment At_Time; a formal's name tells too (ISO/IEC 8652:2012, D.14.1, D.15).
ghost use Rattle.std.specs.Prelude.{◌≡◌, false, option_copied, option_map, unwrap_or};
ghost use Rattle.std.specs.List.{list_any};
ghost use Rattle.ada_image.specs.TypesOfExpressions.{is_span};
ghost use Rattle.ada_image.specs.ImageOfProcedures.{formal_is, is_called, moment_of};
ghost use Rattle.ada_image.specs.ImageOfProcedures.{is_in_time, setting_with};

use crate::typing::is_span;
use ada_image::Within;
use ada_tree::{Argument, Expression, Identifier};
use image_layout::argument_from;
use profile_image::{ExprNo, Setting};

fn formal_is(name: &[u8], formal: &Option<Identifier>) -> bool
    ensures { result ≡ formal_is name.now formal.now }
{
    match formal {
        None => false,
        Some(formal) => formal.text.as_slice() == name,
    }
}

/// Whether an argument has this formal's name before its arrow.
fn is_called(name: &[u8], argument: &Argument<Expression>) -> bool
    ensures { result ≡ is_called name.now argument.now }
{
    formal_is(name, &argument.formal)
}

/// Whether one of the arguments has this formal's name before its arrow.
fn any_is_called(name: &[u8], arguments: &[Argument<Expression>]) -> bool
    ensures { result ≡ list_any (is_called name.now) arguments.now }
{
    arguments.iter().any(|argument| is_called(name, argument))
}

/// The moment or the span.
#[tactic(auto, unfolding(ada_image::specs::ImageOfProcedures::moment_of))]
pub fn moment_of(arguments: &[Argument<Expression>]) -> Option<&Expression>
    ensures { option_copied result ≡ moment_of arguments.now }
{
    match argument_from(1, b"at_time", arguments) {
        Some(moment) => Some(moment),
        None => argument_from(1, b"in_time", arguments),
    }
}

/// Whether it is there and a span.
fn is_a_span(within: &Within<'_, '_>, moment: Option<&Expression>) -> bool
    ensures { result
        ≡ unwrap_or (option_map (is_span within.now.names) (option_copied moment.entry)) false }
{
    match moment {
        None => false,
        Some(moment) => is_span(within.names.get(), moment),
    }
}

/// Whether the moment is given as a span.
#[tactic(auto, unfolding(ada_image::specs::ImageOfProcedures::is_in_time))]
pub fn is_in_time(within: &Within<'_, '_>, arguments: &[Argument<Expression>]) -> bool
    ensures { result ≡ is_in_time within.now arguments.now }
{
    if any_is_called(b"in_time", arguments) {
        true
    } else if any_is_called(b"at_time", arguments) {
        false
    } else {
        is_a_span(within, moment_of(arguments))
    }
}

/// The setting for a moment or a span.
pub fn setting_with(is_in_time: bool, value: ExprNo) -> Setting
    ensures { result ≡ setting_with is_in_time value }
{
    if is_in_time {
        Setting::In(value)
    } else {
        Setting::At(value)
    }
}
