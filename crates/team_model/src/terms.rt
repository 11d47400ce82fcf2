use acts::{Entry, InviteKind};
use tg_text::{Bytes, DeviceId, Items, LinkName, PublicKey, RoleName, UserName};

/// A link of the graph, with the name that its text has. The root names no team.
#[derive(Debug, Drop)]
pub struct Link {
    pub team: Option<LinkName>,
    pub prev: Items<LinkName>,
    pub key: PublicKey,
    pub entry: Entry,
    pub signature: Bytes,
    pub name: LinkName,
}

/// Why an act is refused.
#[derive(Clone, Copy, Debug, PartialEq, Eq)]
pub enum Reason {
    NotListed,
    NotAdmin,
    NotYours,
    Present,
    Absent,
    LastAdmin,
    LastDevice,
    WasRemoved,
    NoInvite,
    Spent,
    Expired,
    TooMany,
    Reserved,
    NotEmpty,
}

/// What became of a link.
#[derive(Clone, Copy, Debug, PartialEq, Eq)]
pub enum Verdict {
    Counts,
    Unlawful(Reason),
    Struck(LinkName),
    Outranked(LinkName),
    Refused(Reason),
    Waiting,
}

/// A listed user, with the roles of that user in ascending order.
#[derive(Debug, Drop, PartialEq, Eq)]
pub struct Member {
    pub user: UserName,
    pub roles: Items<RoleName>,
}

/// A device that was ever listed, and whether it is listed now. `seal` is its sealing public.
#[derive(Clone, Copy, Debug, PartialEq, Eq)]
pub struct Device {
    pub id: DeviceId,
    pub seal: [u8; 32],
    pub user: UserName,
    pub listed: bool,
}

/// An invitation that was ever made. Bit q of `used` is set where leaf q was used; `expiry` is in seconds, 0 for never.
#[derive(Clone, Copy, Debug, PartialEq, Eq)]
pub struct Invitation {
    pub id: [u8; 32],
    pub kind: InviteKind,
    pub user: UserName,
    pub uses: u32,
    pub used: u32,
    pub expiry: u64,
    pub closed: bool,
}
