//! How much a team has at most. `specs/Limits.antt` names the same numbers for clauses.

/// How many members are listed at most.
pub const MOST_MEMBERS: usize = 256;

/// How many devices were ever listed for a user at most.
pub const MOST_DEVICES_EVER: usize = 64;

/// How many devices are listed for a user at most.
pub const MOST_DEVICES: usize = 8;

/// How many roles are listed at most, `admin` among them.
pub const MOST_ROLES: usize = 32;

/// How many invitations are open at most, of both kinds together.
pub const MOST_INVITATIONS: usize = 256;

/// How many leaves an invitation has: as many as the tree of its key.
pub const INVITATION_LEAVES: u32 = 32;

/// How many boxes are held at most.
pub const MOST_BOXES: usize = 65_536;

/// The last generation of a scope's keys.
pub const LAST_GENERATION: u16 = 65_534;
