//! Timers by number, and those that are set and due (ISO/IEC 8652:2012, D.14.1).
ghost use Rattle.std.specs.Prelude.{◌≡◌};
ghost use Rattle.profile_machine.specs.Handlers.{without_number, with_setting, clear_timer};
ghost use Rattle.profile_image.specs.Words.{edit_at};

use profile_machine::world::{Timer, TimerSetting, World};
use world_tables::List;

fn drop_number(numbers: &mut List<u32>, k: u32)
    ensures { numbers.new ≡ without_number k numbers.old }
{
    numbers.retain(|number| k != *number);
}

/// The timer with this number has this setting, or none; where it is not there, nothing changes.
#[tactic(auto, using(crate::proofs::EditLemmas::none_edited))]
pub fn set_in(timers: &mut List<Timer>, k: u32, setting: Option<TimerSetting>)
    ensures { timers.new ≡ edit_at k (with_setting setting) timers.old }
{
    if let Some(timer) = timers.get_mut(k as usize) {
        timer.setting = setting;
    }
}

/// A timer is not set, and what the last tick made due of it is undone.
pub fn clear_timer(world: &mut World, k: u32)
    ensures { world.new ≡ clear_timer k world.old }
{
    set_in(&mut world.timers, k, None);
    drop_number(&mut world.timers_set, k);
    drop_number(&mut world.timers_due, k);
}
