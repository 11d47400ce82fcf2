ghost use Rattle.std.specs.Prelude.{◌≡◌};
ghost use Rattle.sha2.specs.Sha256.{sha256};

use sha2::{Digest, Sha256};
use tg_text::LinkName;

/// The name of the link with this text. It takes no memory.
pub fn name_of(bytes: &[u8]) -> LinkName
    ensures { result ≡ sha256 bytes.now }
{
    LinkName(Sha256::digest(bytes))
}
