ghost use Rattle.sha2.specs.Sha256.{sha256};
ghost use Rattle.lockboxes.specs.Symbolic.{symbolic_seal, symbolic_unseal};
ghost use Rattle.lockboxes.specs.SymbolicLaws.{symbolic_boxes, symbolic_opens, symbolic_publics};

use crate::sealer::Sealer;
use sha2::{Digest, Sha256};
use std::alloc::Global;
use tg_text::{Bytes, Memory};

/// The keeper that stands for a real one, and hides nothing: a box has its secret in the clear. The public key of a secret
/// is its SHA-256, and a box is the recipient's public key and then the secret.
#[derive(Clone, Copy, Debug)]
pub struct SymbolicKeeper;

impl Sealer for SymbolicKeeper {
    ghost public = { sha256 };

    ghost sealed = { symbolic_seal };

    ghost opened = { symbolic_unseal };

    ghost publics = { symbolic_publics };

    ghost boxes = { symbolic_boxes };

    ghost opens = { symbolic_opens };

    fn public_of(&self, secret: &[u8; 32]) -> [u8; 32] {
        Sha256::digest(secret)
    }

    fn seal(
        &self,
        alloc: Global,
        secret: &[u8; 32],
        to_public: &[u8; 32],
    ) -> Result<Bytes, Memory> {
        let mut bytes = Bytes::from_slice(alloc, to_public)?;
        bytes.append(secret)?;
        Ok(bytes)
    }

    fn unseal(&self, bytes: &[u8], secret: &[u8; 32]) -> Option<[u8; 32]> {
        let content = bytes.strip_prefix(&self.public_of(secret))?;
        content.try_into().ok()
    }
}
