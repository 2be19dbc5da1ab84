//! The opening of a run.
ghost use Rattle.std.specs.Prelude.{◌≡◌, IfOk};
ghost use Rattle.machine_kernel.specs.Kernel.{shown, future, stop_to_come};
ghost use Rattle.machine_kernel.specs.Future.{opened};
ghost use Rattle.profile_machine.specs.Run.{lines_of_run, stop_of_run};

use crate::kernel::Kernel;
use ann_base::{Moment, NoMemory};
use machine_laws::time::runs_begin_at_0;
use profile_image::{Image, Item};
use std::alloc::Global;
use world_tables::List;

/// The opening world of the run of a program with a script, up to a bound in ticks. Its first lines
/// are owed.
///
/// Errors: memory ran out.
pub fn boot(
    alloc: Global,
    image: Image,
    script: List<(Moment, Item)>,
    bound: u64,
) -> Result<Kernel, NoMemory>
    ensures opening { IfOk result (λ kernel. shown kernel ≡ opened image script bound) }
    ensures lines { IfOk result (λ kernel. future kernel ≡ lines_of_run image script bound) }
    ensures stop { IfOk result (λ kernel. stop_to_come kernel ≡ stop_of_run image script bound) }
{
    runs_begin_at_0();
    Kernel::open(alloc, image, script, bound)
}
