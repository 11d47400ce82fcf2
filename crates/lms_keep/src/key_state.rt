ghost use Rattle.std.specs.Prelude.{◌≡◌, IfOk, Option, Some};
ghost use Rattle.tg_text.specs.Reading.{Reads};
ghost use Rattle.lms_tree.specs.Signatures.{public_key};
ghost use Rattle.lms_keep.specs.KeyText.{AreKinds, IsKeyState, key_text, leaves};
ghost use Rattle.lms_keep.specs.Signing.{tree_key};
ghost use Rattle.lms_keep.specs.declared.key_state.KeyState.{KeyState};

use crate::lines::{next_hash, next_id, next_kinds, next_leaf, next_user};
use crate::writing::write_kinds;
use lms_tree::{LmsKind, Tree, TreeFault};
use std::alloc::Global;
use tg_text::{
    Bytes, Lines, Memory, PublicKey, UserName, strip_front, write_decimal_line, write_hex_line,
    write_text_line,
};

/// What a key file says of a device's keys. It has no `Debug`, so that no secret is printed by chance.
#[derive(Clone, Copy)]
pub struct KeyState {
    pub user: UserName,
    /// The LMS type of RFC 8554 section 5.1, 5 to 7.
    pub lms: u32,
    /// The LM-OTS type of RFC 8554 section 4.1, 1 to 4.
    pub ots: u32,
    /// The identifier I of RFC 8554 section 5.3.
    pub id: [u8; 16],
    /// The seed of RFC 8554 appendix A, from which the private elements come.
    pub seed: [u8; 32],
    /// The secret by which the device opens what is sealed to it.
    pub secret: [u8; 32],
    /// The leaf that signs next; the number of leaves where none is left.
    pub next: u32,
}

impl KeyState {
    /// The key that a key file's text spells. It takes no memory.
    pub fn read(text: &[u8]) -> Option<KeyState>
        ensures { Reads IsKeyState key_text text.now result }
    {
        let rest = strip_front(text, b"team-key 1\n")?;
        let mut lines = Lines::new(rest);
        let user = next_user(&mut lines)?;
        let (lms, ots) = next_kinds(&mut lines)?;
        let id = next_id(&mut lines)?;
        let seed = next_hash(&mut lines, b"seed")?;
        let secret = next_hash(&mut lines, b"secret")?;
        let next = next_leaf(&mut lines, leaves_of(lms))?;
        if !lines.rest().is_empty() {
            return None;
        }
        Some(KeyState {
            user,
            lms,
            ots,
            id,
            seed,
            secret,
            next,
        })
    }

    /// The text of the key file.
    pub fn write(&self, alloc: Global) -> Result<Bytes, Memory>
        ensures text { IfOk result (λ bytes. bytes ≡ key_text self.now) }
        ensures read_again { IfOk result (λ bytes. IsKeyState self.now → (found : Option KeyState) → Reads IsKeyState key_text bytes found → found ≡ Some self.now) }
    {
        let mut out = Bytes::new(alloc);
        out.append(b"team-key 1\n")?;
        write_text_line(&mut out, b"user", self.user.as_slice())?;
        write_kinds(&mut out, self.lms, self.ots)?;
        write_hex_line(&mut out, b"id", &self.id)?;
        write_hex_line(&mut out, b"seed", &self.seed)?;
        write_hex_line(&mut out, b"secret", &self.secret)?;
        write_decimal_line(&mut out, b"next", u64::from(self.next))?;
        Ok(out)
    }

    /// The public key of the kinds, the id and the seed. It makes the tree, which takes some thousand hashes a leaf.
    pub fn public(&self, alloc: Global) -> Result<PublicKey, Memory>
        requires { AreKinds self.now.lms self.now.ots }
        ensures { IfOk result (λ key. key ≡ public_key (tree_key self.now)) }
    {
        let tree = self.tree(alloc)?;
        Ok(tree.public())
    }

    /// The number of leaves, 0 where the LMS type isn't one.
    pub fn leaves(&self) -> u32
        ensures { result ≡ leaves self.now.lms }
    {
        leaves_of(self.lms)
    }

    // The tree of the key, whose kinds are among those that a tree is made of.
    pub(crate) fn tree(&self, alloc: Global) -> Result<Tree, Memory>
        requires { AreKinds self.now.lms self.now.ots }
        ensures { IfOk result (λ tree. tree ≡ tree_key self.now) }
    {
        match Tree::make(alloc, self.lms, self.ots, &self.id, &self.seed) {
            Ok(tree) => Ok(tree),
            Err(TreeFault::Memory) => Err(Memory),
            Err(TreeFault::Kind | TreeFault::Height) => unreachable!(),
        }
    }
}

// The number of leaves of the trees of a type.
fn leaves_of(lms: u32) -> u32
    ensures { result ≡ leaves lms }
{
    match LmsKind::of(lms) {
        Some(kind) => kind.leaves(),
        None => 0,
    }
}
