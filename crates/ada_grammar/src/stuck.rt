//! Why a production is not read.

/// Why a production is not read.
#[derive(Clone, Copy)]
pub enum Stuck {
    /// The next token cannot stand there.
    At {
        /// How many tokens remain, itself counted.
        remaining: usize,
    },
    /// The next token opens a level beyond the limit.
    TooDeep {
        /// How many tokens remain, itself counted.
        remaining: usize,
    },
}
