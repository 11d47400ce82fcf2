ghost use Rattle.std.specs.Prelude.{◌≡◌, None, IfOk};
ghost use Rattle.tg_outside.specs.Contents.{IsWord};

use crate::entropy::{Entropy, word_of};
use crate::fault::Failed;
use std::io::Read;
use std::{fs, io, rt};

/// The random bytes of the system, which aren't known: a word is read of `/dev/urandom`.
#[derive(Drop)]
pub struct RealEntropy<'a, R: rt::Files> {
    rt: &'a R,
    faults: u64,
}

impl<'a, R: rt::Files> RealEntropy<'a, R> {
    /// No fault counted yet.
    pub fn new(rt: &'a R) -> RealEntropy<'a, R>
        ensures { ⟦<RealEntropy<'a, R> as Entropy>⟧.faults result ≡ 0 }
    {
        RealEntropy { rt, faults: 0 }
    }
}

impl<R: rt::Files> Entropy for RealEntropy<'_, R> {
    ghost left = { λ _. None };

    ghost faults = { λ it. it.faults };

    fn draw(&mut self) -> Result<[u8; 32], Failed> {
        match read_random(self.rt) {
            Ok(word) => Ok(word),
            Err(_) => {
                self.faults = self.faults.saturating_add(1);
                Err(Failed)
            }
        }
    }
}

fn read_random<R: rt::Files>(rt: &R) -> io::Result<[u8; 32]>
    ensures { IfOk result IsWord }
{
    let mut word = [0; 32];
    fs::open(rt, "/dev/urandom")?.read_exact(&mut word)?;
    Ok(word_of(word))
}
