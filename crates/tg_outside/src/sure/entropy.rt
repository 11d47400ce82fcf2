ghost use Rattle.std.specs.Prelude.{◌≡◌, ◌+◌, ◌^◌, ◌%◌, Ok, None, IfOk};
ghost use Rattle.tg_outside.specs.Contents.{IsWord};
ghost use Rattle.tg_outside.specs.Sure.{sure_word};

use crate::entropy::Entropy;
use crate::fault::Failed;
use sha2::{Digest, Sha256};
use std::marker::Model;

/// Entropy that never fails: each word is the SHA-256 of a start value and the number of the draw, in eight bytes. Contracts
/// see the start value and the number. The words have no end, so there is no list of those that are left.
#[derive(Debug, Drop)]
pub struct SureEntropy {
    start: [u8; 32],
    drawn: u64,
}

impl Model for SureEntropy {
    ghost use Rattle.std.specs.Prelude.{ℕ, List};

    ghost Value = { List ℕ × ℕ };

    ghost view = { λ it. (it.start, it.drawn) };
}

impl SureEntropy {
    /// Nothing drawn yet.
    pub fn new(start: [u8; 32]) -> SureEntropy
        ensures { result ≡ (start, 0) }
    {
        SureEntropy { start, drawn: 0 }
    }
}

impl Entropy for SureEntropy {
    ghost left = { λ _. None };

    ghost faults = { λ _. 0 };

    // After draw 2^64 - 1 comes draw 0.
    fn draw(&mut self) -> Result<[u8; 32], Failed>
        ensures drawn { result ≡ Ok (sure_word self.old.0 self.old.1) }
        ensures word { IfOk result IsWord }
        ensures next { self.new ≡ (self.old.0, (self.old.1 + 1) % 2 ^ 64) }
    {
        let mut hasher = Sha256::new();
        hasher.update(self.start);
        hasher.update(self.drawn.to_be_bytes());
        self.drawn = self.drawn.wrapping_add(1);
        Ok(hasher.finalize())
    }
}
