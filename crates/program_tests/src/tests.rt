//! What the tests ask for, and where it is read and written.
mod failures;
mod memory;
mod rows;
