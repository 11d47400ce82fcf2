ghost use Rattle.std.specs.Prelude.{◌≡◌, length};
ghost use Rattle.tg_text.specs.Spelling.{AreBytes, IsHash};

use std::marker::Model;

// Bytes as they are, with the fact that each is below 256, which crates above know of a slice that they hold.
fn in_range(bytes: &[u8]) -> &[u8]
    ensures bytes { result.now ≡ bytes.now }
    ensures range { AreBytes bytes.now }
{
    bytes
}

/// The name of a link: the SHA-256 of its whole text.
#[derive(Clone, Copy, Debug, PartialEq, Eq, PartialOrd, Ord, Hash)]
pub struct LinkName(pub [u8; 32]);

impl Model for LinkName {
    ghost use Rattle.std.specs.Prelude.{ℕ, List};

    ghost Value = { List ℕ };

    ghost view = { λ it. it.0 };

    ghost inverse = { λ bytes. record { 0 = bytes } };
}

impl LinkName {
    /// The bytes.
    pub fn as_slice(&self) -> &[u8]
        ensures bytes { result.now ≡ self.now }
        ensures range { IsHash self.now }
    {
        in_range(&self.0)
    }
}

/// The id of a device: the SHA-256 of its public key.
#[derive(Clone, Copy, Debug, PartialEq, Eq, PartialOrd, Ord, Hash)]
pub struct DeviceId(pub [u8; 32]);

impl Model for DeviceId {
    ghost use Rattle.std.specs.Prelude.{ℕ, List};

    ghost Value = { List ℕ };

    ghost view = { λ it. it.0 };

    ghost inverse = { λ bytes. record { 0 = bytes } };
}

impl DeviceId {
    /// The bytes.
    pub fn as_slice(&self) -> &[u8]
        ensures bytes { result.now ≡ self.now }
        ensures range { IsHash self.now }
    {
        in_range(&self.0)
    }
}

/// The public key of a device, laid out as in RFC 8554 section 5.3. The bytes may be any.
#[derive(Clone, Copy, Debug, PartialEq, Eq, PartialOrd, Ord, Hash)]
pub struct PublicKey(pub [u8; 56]);

impl Model for PublicKey {
    ghost use Rattle.std.specs.Prelude.{ℕ, List};

    ghost Value = { List ℕ };

    ghost view = { λ it. it.0 };

    ghost inverse = { λ bytes. record { 0 = bytes } };
}

impl PublicKey {
    /// The bytes.
    pub fn as_slice(&self) -> &[u8]
        ensures bytes { result.now ≡ self.now }
        ensures size { length self.now ≡ 56 }
        ensures range { AreBytes self.now }
    {
        in_range(&self.0)
    }
}
