ghost use Rattle.std.specs.Prelude.{◌≡◌, ◌+◌, ◌<◌, ◌≤◌, ◌⊎◌, length, IfSome, IfOk, IfErr, IsTrue};
ghost use Rattle.std.specs.FinMap as map;
ghost use Rattle.tg_outside.specs.Causes.{Rose};
ghost use Rattle.lms_tree.specs.LmsKinds.{leaves_of, lms_length};
ghost use Rattle.lms_tree.specs.Verifying.{verifies};
ghost use Rattle.lms_keep.specs.KeyText.{IsKeyState, key_text, leaves};
ghost use Rattle.lms_keep.specs.Signing.{SignsAs, advanced, signed_by, tree_key};

use crate::fault::SignFault;
use crate::key_state::KeyState;
use crate::turn::{Turn, advance};
use lms_tree::Tree;
use std::alloc::Global;
use tg_outside::{Fault, Files};
use tg_text::{Bytes, Memory, PublicKey};

/// A signature, with the key and the leaf that made it.
#[derive(Debug, Drop)]
pub struct Signed {
    pub key: PublicKey,
    pub leaf: u32,
    pub signature: Bytes,
}

// All that takes memory when a key signs.
#[derive(Drop)]
struct Signer {
    tree: Tree,
    text: Bytes,
    room: Vec<u8>,
}

/// Puts the key file that bears the leaf after in the place of the key file, and then signs with the leaf that was next.
///
/// Where nothing is signed, the file is as it was, or after `WriteFault` may bear the leaf after.
pub fn sign_next<F: Files>(
    alloc: Global,
    files: &mut F,
    name: &str,
    message: &[u8],
) -> Result<Signed, SignFault>
    ensures signs { IfSome (F.files files.old) (λ m. SignsAs m (map.get m name.now) name.now message.now (F.files files.new) result) }
    ensures verifies { IfOk result (λ signed. IsTrue (verifies signed.key message.now signed.signature)) }
    ensures later { F.faults files.old ≤ F.faults files.new }
    ensures cause { IfErr result (λ e. (e ≡ SignFault.ReadFault) ⊎ (e ≡ SignFault.WriteFault) → Rose (F.faults files.old) (F.faults files.new)) }
{
    let bytes = match files.read(alloc, name) {
        Ok(Some(bytes)) => bytes,
        Ok(None) => return Err(SignFault::NoFile),
        Err(Fault::Failed) => return Err(SignFault::ReadFault),
        Err(Fault::Memory) => return Err(SignFault::Memory),
    };
    let Some(state) = KeyState::read(bytes.as_slice()) else {
        return Err(SignFault::BadKeyFile);
    };
    if state.next >= state.leaves() {
        return Err(SignFault::Spent);
    }
    let Ok(signer) = prepare(alloc, &state) else {
        return Err(SignFault::Memory);
    };
    match advance(alloc, files, name, signer.text.as_slice(), state.next) {
        Ok(turn) => Ok(sign_with(signer, turn, message)),
        Err(Fault::Failed) => Err(SignFault::WriteFault),
        Err(Fault::Memory) => Err(SignFault::Memory),
    }
}

// The tree of the key, the text of the key file that bears the leaf after, and room for a signature.
fn prepare(alloc: Global, state: &KeyState) -> Result<Signer, Memory>
    requires range { IsKeyState state.now }
    requires left { state.now.next < leaves state.now.lms }
    ensures tree { IfOk result (λ signer. signer.tree ≡ tree_key state.now) }
    ensures text { IfOk result (λ signer. signer.text ≡ key_text (advanced state.now)) }
    ensures room { IfOk result (λ signer. length signer.room.items ≡ lms_length signer.tree.lms signer.tree.ots) }
{
    let tree = state.tree(alloc)?;
    let after = KeyState {
        next: state.next + 1,
        ..*state
    };
    let text = after.write(alloc)?;
    let room = vec![in alloc; 0; tree.length()]?;
    Ok(Signer { tree, text, room })
}

// Signs with the leaf whose turn it is, without memory.
fn sign_with(signer: Signer, turn: Turn, message: &[u8]) -> Signed
    requires left { turn.leaf < leaves_of signer.tree.lms }
    requires room { length signer.room.items ≡ lms_length signer.tree.lms signer.tree.ots }
    ensures signed { result ≡ signed_by signer.tree turn.leaf message.now }
    ensures verifies { IsTrue (verifies result.key message.now result.signature) }
{
    let Signer { tree, mut room, .. } = signer;
    let leaf = turn.take();
    tree.sign_into(leaf, message, room.as_mut_slice());
    Signed {
        key: tree.public(),
        leaf,
        signature: Bytes::from_vec(room),
    }
}
