ghost use Rattle.std.specs.Prelude.{◌≡◌, IfOk};
ghost use Rattle.lms_tree.specs.Signatures.{public_key};
ghost use Rattle.lms_keep.specs.KeyText.{IsKeyState};
ghost use Rattle.lms_keep.specs.Signing.{tree_key};
ghost use Rattle.lms_keep.specs.declared.key_state.KeyState.{KeyState};
ghost use Rattle.link_graph.specs.Held.{Held};
ghost use Rattle.author_commands.specs.Signing.{IsSound};
ghost use Rattle.author_commands.specs.declared.planner.Planned.{Planned};

use crate::refusal::Refusal;
use link_text::Draft;
use lms_keep::KeyState;
use replica::Replica;
use std::alloc::Global;
use tg_text::{Memory, PublicKey};

/// What is to be done by a plan.
#[derive(Debug, Drop)]
pub enum Planned {
    /// Nothing: the rules refuse it.
    Refuses(Refusal),
    /// A link is signed and held.
    Writes(Draft),
}

/// What plans the link of a command.
pub trait Planner {
    /// What may be planned of held links for a key.
    ghost plans: { Self → Held → KeyState → Planned → Type 0 };

    /// Plans for a key, whose public key is handed in. What is to be signed is a link of the team but for its signature, and there is
    /// room for it.
    fn plan(
        &self,
        alloc: Global,
        replica: &Replica,
        author: &KeyState,
        key: &PublicKey,
    ) -> Result<Planned, Memory>
        requires author { IsKeyState author.now }
        requires key { key.now ≡ public_key (tree_key author.now) }
        ensures plans { IfOk result (λ planned. plans self.now replica.now author.now planned) }
        ensures sound { IfOk result (λ planned. IsSound replica.now author.now planned) };
}
