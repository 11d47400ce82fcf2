use tg_text::{Bytes, DeviceId, KeyLines, PublicKey, RoleName, Scope, Title, UserName};

/// What a link does to the team.
///
/// A `key` is the public key of a device, whose id is the SHA-256 of that key, or of an invitation. A `seal` is the public
/// half with which a device opens what is sealed to it.
#[derive(Debug, Drop, PartialEq, Eq)]
pub enum Act {
    /// The founding of the team, by its first member. `seal` is of the founder's device.
    Found {
        seal: [u8; 32],
        title: Title,
    },
    /// A new member with a first device.
    AddMember {
        user: UserName,
        key: PublicKey,
        seal: [u8; 32],
    },
    /// A member and all his devices go.
    RemoveMember {
        user: UserName,
    },
    /// A new role.
    AddRole {
        role: RoleName,
    },
    /// A role that no member has goes.
    RemoveRole {
        role: RoleName,
    },
    /// A role for a member.
    GiveRole {
        user: UserName,
        role: RoleName,
    },
    /// A role less for a member.
    TakeRole {
        user: UserName,
        role: RoleName,
    },
    /// A further device of the author's.
    AddDevice {
        key: PublicKey,
        seal: [u8; 32],
    },
    /// A device of a member goes.
    RemoveDevice {
        user: UserName,
        hex: DeviceId,
    },
    /// An invitation for up to `uses` new members, up to the time `expiry` in seconds, or without end where that is 0.
    InviteMember {
        key: PublicKey,
        uses: u32,
        expiry: u64,
    },
    /// An invitation for up to `uses` further devices of the author's, as long as the other kind.
    InviteDevice {
        key: PublicKey,
        uses: u32,
        expiry: u64,
    },
    /// The invitation of this kind and this id closes. The id is the SHA-256 of the invitation's key.
    Revoke {
        kind: InviteKind,
        hex: [u8; 32],
    },
    /// A new member with a first device, by a leaf of the invitation `by`. `proof` is the leaf's signature, any bytes.
    AdmitMember {
        user: UserName,
        key: PublicKey,
        seal: [u8; 32],
        by: PublicKey,
        proof: Bytes,
    },
    /// A further device of the author's, by a leaf of the invitation `by`.
    AdmitDevice {
        key: PublicKey,
        seal: [u8; 32],
        by: PublicKey,
        proof: Bytes,
    },
    /// A new key for a scope that isn't a device.
    Rotate {
        scope: Scope,
    },
    /// Nothing but the key lines of its link.
    Seal,
    /// A new title.
    Title {
        title: Title,
    },
    /// Nothing but to join branches of the graph.
    Join,
}

/// Whom an invitation is for.
#[derive(Clone, Copy, Debug, PartialEq, Eq, PartialOrd, Ord, Hash)]
pub enum InviteKind {
    Member,
    Device,
}

/// An act with its author, the author's device and the author's time, in seconds.
#[derive(Debug, Drop, PartialEq, Eq)]
pub struct Entry {
    pub user: UserName,
    pub device: DeviceId,
    pub time: u64,
    pub act: Act,
    pub lines: KeyLines,
}
