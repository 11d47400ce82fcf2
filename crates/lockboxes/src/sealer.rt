ghost use Rattle.std.specs.Prelude.{◌≡◌, ℕ, List, Option, Some, IfOk};
ghost use Rattle.tg_text.specs.Spelling.{IsHash};
ghost use Rattle.lockboxes.specs.Boxes.{IsBox};

use std::alloc::Global;
use tg_text::{Bytes, Memory};

/// What seals secrets to public keys and opens what is sealed. Each answer is a function of the arguments alone: two
/// sealers of one type answer alike. A secret and a public key have 32 bytes.
pub trait Sealer {
    /// The public key of a secret.
    ghost public: { List ℕ → List ℕ };

    /// The box of a secret for a public key.
    ghost sealed: { List ℕ → List ℕ → List ℕ };

    /// What a secret makes of a box.
    ghost opened: { List ℕ → List ℕ → Option (List ℕ) };

    /// The public key of a secret.
    fn public_of(&self, secret: &[u8; 32]) -> [u8; 32]
        ensures { result ≡ public secret.now };

    /// The box of a secret, which the secret of `to_public` opens.
    fn seal(&self, alloc: Global, secret: &[u8; 32], to_public: &[u8; 32]) -> Result<Bytes, Memory>
        ensures { IfOk result (λ bytes. bytes ≡ sealed secret.now to_public.now) };

    /// What this secret makes of a box. It takes any bytes.
    fn unseal(&self, bytes: &[u8], secret: &[u8; 32]) -> Option<[u8; 32]>
        ensures { result ≡ opened bytes.now secret.now };

    /// The public key of a secret has 32 bytes.
    ghost publics: { (secret : List ℕ) → IsHash secret → IsHash (public secret) };

    /// What is sealed is a box.
    ghost boxes: { (secret to_public : List ℕ) → IsHash secret → IsHash to_public → IsBox (sealed secret to_public) };

    /// A box opens to what was sealed, for the secret to whose public key it was sealed.
    ghost opens: { (secret key : List ℕ) → IsHash secret → IsHash key → opened (sealed secret (public key)) key ≡ Some secret };
}
