ghost use Rattle.std.specs.Prelude.{◌≡◌};
ghost use Rattle.sha2.specs.Sha256.{sha256};

use sha2::{Digest, Sha256};
use tg_text::{DeviceId, PublicKey};

/// The id of the device with this public key.
pub fn device_of(key: &PublicKey) -> DeviceId
    ensures { result ≡ sha256 key.now }
{
    DeviceId(Sha256::digest(key.as_slice()))
}
