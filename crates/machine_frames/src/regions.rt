//! Regions of marks: those of the scopes of masters (ISO/IEC 8652:2012, 7.6.1, 9.3).
ghost use Rattle.std.specs.Prelude.{◌≡◌};
ghost use Rattle.profile_machine.specs.Masters.{region_of_mark};

use ann_base::RegionNo;
use profile_machine::world::Mark;

/// The region of a mark, which the scope of a master has.
pub fn region_of_mark(mark: &Mark) -> Option<RegionNo>
    ensures { result ≡ region_of_mark mark.now }
{
    match mark {
        Mark::Scope(scope) => scope.region,
        Mark::Handled(_)
        | Mark::InProtected(_)
        | Mark::InAccept(_)
        | Mark::Abortable(_)
        | Mark::InInitialize(_)
        | Mark::InFinalize(_)
        | Mark::InAssign(_) => None,
    }
}
