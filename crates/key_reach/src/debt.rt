use tg_text::{DeviceId, KeyId, Scope};

/// What a team owes: a key for a live scope that has none, another key in place of a tainted one, or boxes by which a device
/// that is entitled to a key comes to it.
#[derive(Clone, Copy, Debug, PartialEq, Eq)]
pub enum Debt {
    NoKey(Scope),
    Tainted(KeyId),
    Unreached(KeyId, DeviceId),
}
