//! Who runs: active priorities, the ready queues, blocking, delays, inherited priorities and
//! appointments, and what is done when an effect is over. Each function has the name of the
//! machine's definition of which it is the counterpart.
#![tactic(auto)]

mod blocking;
mod delays;
mod inheritance;
mod levels;
mod order;
mod parts;
mod placing;
mod queues;
mod rivals;
mod settling;

pub use blocking::{block, says_waits, word_of};
pub use delays::{delay_to, is_ahead};
pub use inheritance::{inherit, inherit_running, lose, lose_running};
pub use levels::{active, active_of};
pub use order::in_order;
pub use parts::{part_of, placing_of};
pub use placing::{keep_level, ready, to_head, to_tail};
pub use queues::{choose, places_after};
pub use rivals::edf_level;
pub use settling::settle;
