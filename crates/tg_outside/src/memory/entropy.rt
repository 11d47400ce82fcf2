ghost use Rattle.std.specs.Prelude.{◌≡◌, Some};

use crate::entropy::{Entropy, word_of};
use crate::fault::Failed;
use crate::memory::calls::Calls;

/// A list of words to draw, of which some calls are to fail. Which do is tested alone. Where no word is left a draw fails,
/// and is counted as a fault.
#[derive(Debug, Drop)]
pub struct ListEntropy<'a> {
    words: &'a [[u8; 32]],
    calls: Calls,
}

impl<'a> ListEntropy<'a> {
    /// These words are left. `failing` has the numbers of the calls of `Entropy` that are to fail, counted from 0.
    pub fn new(words: &'a [[u8; 32]], failing: Vec<u64>) -> ListEntropy<'a>
        ensures left { ⟦<ListEntropy<'a> as Entropy>⟧.left result ≡ Some words.now }
        ensures faults { ⟦<ListEntropy<'a> as Entropy>⟧.faults result ≡ 0 }
    {
        ListEntropy {
            words,
            calls: Calls::new(failing),
        }
    }
}

impl Entropy for ListEntropy<'_> {
    ghost left = { λ it. Some it.words.now };

    ghost faults = { λ it. it.calls.faults };

    fn draw(&mut self) -> Result<[u8; 32], Failed> {
        if self.calls.next_fails() {
            return Err(Failed);
        }
        match self.words {
            [word, rest @ ..] => {
                self.words = rest;
                Ok(word_of(*word))
            }
            [] => {
                self.calls.count_fault();
                Err(Failed)
            }
        }
    }
}
