//! The moment of a relative delay (ISO/IEC 8652:2012, 9.6).
ghost use Rattle.std.specs.Prelude.{◌≡◌};
ghost use Rattle.ann_base.specs.Answers.{Answers};
ghost use Rattle.profile_machine.specs.Statements.{from_now, relative_moment};

use crate::seen::Seen;
use crate::values::moment;
use ann_base::{Moment, OrMemory, Raised};
use machine_operators::held_behind;
use profile_image::ExprNo;
use profile_machine::world::World;

fn from_now(world: &World, span: Moment) -> Moment
    ensures { result ≡ from_now world.now span }
{
    held_behind(world.time, span)
}

/// A relative delay's moment.
///
/// Errors: `Fault` with the exception that the evaluation raises.
pub fn relative_moment(q: &Seen<'_>, e: ExprNo) -> Result<Moment, OrMemory<Raised>>
    ensures { Answers result (relative_moment q.now e) }
{
    let span = moment(q, e)?;
    Ok(from_now(q.world, span))
}
