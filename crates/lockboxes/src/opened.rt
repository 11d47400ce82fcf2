use tg_text::KeyId;

/// A key that a device opens, with a secret of it. They are ordered by key, and then by secret.
#[derive(Clone, Copy, Debug, PartialEq, Eq, PartialOrd, Ord, Hash)]
pub struct Opened {
    pub key: KeyId,
    pub secret: [u8; 32],
}
