ghost use Rattle.std.specs.Prelude.{◌≡◌, ◌≤◌, ◌<◌, IfOk, IfSome, IsTrue};
ghost use Rattle.std.specs.List.{AllByRecursion};
ghost use Rattle.tg_text.specs.Spelling.{IsHash, is_user_name};
ghost use Rattle.lms_ots.specs.Chains.{ots_secrets};
ghost use Rattle.lms_tree.specs.LmsKinds.{leaves_of};
ghost use Rattle.lms_tree.specs.declared.lms_kind.LmsKind.TheVariants.{H5};
ghost use Rattle.invitations.specs.Making.{HasDrawCause, IsInviteKey, MakesInvite, invite_of, token_of};
ghost use Rattle.invitations.specs.TokenText.{IsFor, IsToken};

use crate::leaf::front_half;
use crate::token::Token;
use acts::InviteKind;
use lms_ots::{OtsKind, fill_secrets, ots_random};
use lms_tree::{LmsKind, Tree, TreeFault, TreeKey};
use std::alloc::Global;
use tg_outside::{Entropy, MakeFault};
use tg_text::{Items, LinkName, Memory, PublicKey, UserName};

/// An invitation that was made: its public key, and a token for each use. Each token is for one person alone.
#[derive(Drop)]
pub struct Invite {
    pub public: PublicKey,
    pub tokens: Items<Token>,
}

// For what an invitation is made.
#[derive(Clone, Copy)]
struct Terms {
    team: LinkName,
    kind: InviteKind,
    user: Option<UserName>,
}

/// Makes an invitation of up to 32 uses, of a key of its own. It draws two words: the first 16 bytes of the first are the
/// identifier I of RFC 8554, and the second is the seed, which isn't kept. An invitation for a device names its user, and no
/// other does. It takes some 35,000 hashes, and some 70 for each use.
pub fn make_invite<E: Entropy>(
    alloc: Global,
    entropy: &mut E,
    team: &LinkName,
    kind: InviteKind,
    user: Option<UserName>,
    uses: u32,
) -> Result<Invite, MakeFault>
    requires few { uses ≤ leaves_of H5 }
    requires invited { IsFor kind user }
    ensures made { MakesInvite (E.left entropy.old) (E.left entropy.new) team.now kind user uses result }
    ensures tokens { IfOk result (λ invite. AllByRecursion IsToken invite.tokens) }
    ensures cause { HasDrawCause (E.faults entropy.old) (E.faults entropy.new) result }
{
    let Ok(first) = entropy.draw() else {
        return Err(MakeFault::EntropyFault);
    };
    let Ok(seed) = entropy.draw() else {
        return Err(MakeFault::EntropyFault);
    };
    let terms = Terms {
        team: *team,
        kind,
        user,
    };
    let key = TreeKey {
        lms: LmsKind::H5,
        ots: OtsKind::W4,
        id: front_half(&first),
        seed,
    };
    let invite = make_of(alloc, &terms, &key, uses)?;
    Ok(invite)
}

// The invitation of a key.
fn make_of(alloc: Global, terms: &Terms, key: &TreeKey, uses: u32) -> Result<Invite, Memory>
    requires key { IsInviteKey key.now }
    requires few { uses ≤ leaves_of H5 }
    requires invited { IsFor terms.now.kind terms.now.user }
    ensures made { IfOk result (λ invite. invite ≡ invite_of terms.now.team terms.now.kind terms.now.user key.now uses) }
    ensures tokens { IfOk result (λ invite. AllByRecursion IsToken invite.tokens) }
{
    let tree = make_tree(alloc, key)?;
    let mut tokens = Items::new(alloc);
    for leaf in 0..uses {
        let token = make_token(alloc, terms, key, &tree, leaf)?;
        tokens.push(token)?;
    }
    Ok(Invite {
        public: tree.public(),
        tokens,
    })
}

fn make_tree(alloc: Global, key: &TreeKey) -> Result<Tree, Memory>
    requires { IsInviteKey key.now }
    ensures { IfOk result (λ tree. tree ≡ key.now) }
{
    match Tree::make(alloc, 5, 3, &key.id, &key.seed) {
        Ok(tree) => Ok(tree),
        Err(TreeFault::Memory) => Err(Memory),
        Err(TreeFault::Kind | TreeFault::Height) => unreachable!(),
    }
}

// The token of a leaf of the tree.
fn make_token(
    alloc: Global,
    terms: &Terms,
    key: &TreeKey,
    tree: &Tree,
    leaf: u32,
) -> Result<Token, Memory>
    requires key { IsInviteKey key.now }
    requires tree { tree.now ≡ key.now }
    requires leaf { leaf < leaves_of H5 }
    requires invited { IsFor terms.now.kind terms.now.user }
    ensures made { IfOk result (λ token. token ≡ token_of terms.now.team terms.now.kind terms.now.user key.now leaf) }
    ensures token { IfOk result (λ token. IsToken token) }
{
    // A law: it does nothing at run time.
    are_named(terms);
    let secrets = make_secrets(alloc, key, leaf)?;
    let path = tree.path(alloc, leaf)?;
    Ok(Token {
        team: terms.team,
        kind: terms.kind,
        user: terms.user,
        public: tree.public(),
        leaf,
        random: ots_random(&key.id, leaf, &key.seed),
        secrets,
        path: Items::from_vec(path),
    })
}

// The private elements of a leaf.
fn make_secrets(alloc: Global, key: &TreeKey, leaf: u32) -> Result<Items<[u8; 32]>, Memory>
    requires { IsInviteKey key.now }
    ensures { IfOk result (λ secrets. secrets ≡ ots_secrets key.now.ots key.now.id leaf key.now.seed) }
{
    let mut secrets = vec![in alloc; [0; 32]; key.ots.p()]?;
    fill_secrets(key.ots, &key.id, leaf, &key.seed, secrets.as_mut_slice());
    Ok(Items::from_vec(secrets))
}

// A law: the team is named by a hash, and the user by a name.
fn are_named(terms: &Terms)
    ensures team { IsHash terms.now.team }
    ensures user { IfSome terms.now.user (λ name. IsTrue (is_user_name name)) }
{
    terms.team.as_slice();
    if let Some(user) = &terms.user {
        user.as_slice();
    }
}
