//! The limits of this profile on what stands in a source (docs/LANGUAGE.md).

/// How many names the parameters of a profile have at most.
pub const MOST_PARAMETERS: usize = 16;

/// How many entries a unit declares at most.
pub const MOST_ENTRIES: usize = 64;

/// How many alternatives a selective accept has at most.
pub const MOST_ALTERNATIVES: usize = 64;

/// How many bytes an expanded name has at most.
pub const LONGEST_NAME: usize = 500;

/// How many components an array has at most.
pub const MOST_COMPONENTS: i128 = 4_096;

/// How many cells the declarations and loops of library packages have at most.
pub const MOST_PACKAGE_CELLS: u64 = 32_768;
