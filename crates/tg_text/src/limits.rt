//! How much is held and read at most. `specs/Limits.antt` names the same numbers for clauses.

/// How many links a team has at most.
pub const MOST_LINKS: usize = 16_384;

/// How many bytes the text of a link has at most.
pub const MOST_LINK_BYTES: usize = 1_048_576;

/// How many bytes a file of links or a bundle has at most.
pub const MOST_FILE_BYTES: u64 = 268_435_456;
