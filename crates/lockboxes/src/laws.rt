//! Laws on sealed boxes. The functions do nothing.
ghost use Rattle.std.specs.Prelude.{◌≡◌, ◌++◌, ◌↔◌, ℕ, List, Some, Contains, length};
ghost use Rattle.sha2.specs.Sha256.{sha256};
ghost use Rattle.tg_text.specs.Spelling.{IsHash};
ghost use Rattle.tg_text.specs.declared.keys.BoxLine.{BoxLine};
ghost use Rattle.tg_text.specs.declared.keys.KeyId.{KeyId};
ghost use Rattle.lockboxes.specs.Keeping.{Keeper, Opens};
ghost use Rattle.lockboxes.specs.KeepingLaws.{OpenedAreEntitled};
ghost use Rattle.lockboxes.specs.Symbolic.{symbolic_unseal};

use crate::sealer::Sealer;

/// Whoever opens the key to which a secret was sealed opens the secret's key too.
pub fn sealed_secrets_are_opened<K: Sealer>()
    ensures { let keeper : Keeper = record { public_of = K.public; unseal = K.opened } in
        (boxes : List BoxLine) (own : KeyId) (start : List ℕ) (b : BoxLine) (secret key : List ℕ)
        → IsHash secret → IsHash key → Contains boxes b
        → b.bytes ≡ K.sealed secret (K.public key) → b.of.public ≡ K.public secret
        → Opens keeper boxes own start b.to key → Opens keeper boxes own start b.of secret }
{}

/// A secret opens exactly the symbolic boxes that are its public key and 32 bytes behind it, and these are what it finds.
pub fn symbolic_boxes_hold_their_secret()
    ensures { (bytes secret content : List ℕ) → (symbolic_unseal bytes secret ≡ Some content) ↔ ((length content ≡ 32) × (bytes ≡ sha256 secret ++ content)) }
{}

/// Each key that a device opens and that isn't tainted is its own, or is of a scope to which it is entitled.
pub fn opened_are_entitled()
    ensures { OpenedAreEntitled }
{}
