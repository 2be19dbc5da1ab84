//! The items of a script (docs/SCRIPTS.md).

/// An item of a script.
#[derive(Clone, Copy, PartialEq, Eq)]
pub enum Item {
    /// An interrupt comes, 0 to 15.
    Interrupt(u8),
    /// A port, 0 to 15, is set to a value.
    Port(u8, i32),
    /// From here on an interrupt is kept.
    Mask(u8),
    /// It is delivered again.
    Unmask(u8),
}
