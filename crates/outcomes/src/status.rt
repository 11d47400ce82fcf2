//! The statuses of a run.

/// All was done.
pub const DONE: u8 = 0;

/// All was done, and an item of what others gave was refused.
pub const ITEM_REFUSED: u8 = 1;

/// The words are no command.
pub const USAGE: u8 = 2;

/// A named file isn't as the command needs it.
pub const BAD_FILE: u8 = 3;

/// The rules refuse the command.
pub const REFUSED: u8 = 4;

/// A call of the outside failed.
pub const FAULT: u8 = 5;

/// Memory was short.
pub const NO_MEMORY: u8 = 6;
