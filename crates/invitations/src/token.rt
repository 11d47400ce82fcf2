ghost use Rattle.std.specs.Prelude.{◌≡◌, ◌++◌, Option, OnOk, IfOk};
ghost use Rattle.tg_text.specs.Reading.{Reads};
ghost use Rattle.invitations.specs.FileLines.{user_field, hash_lines};
ghost use Rattle.invitations.specs.TokenText.{IsToken, token_text};
ghost use Rattle.invitations.specs.declared.token.Token.{Token};

use crate::kind::word_of;
use acts::InviteKind;
use std::alloc::Global;
use tg_text::{
    Bytes, Items, LinkName, Memory, PublicKey, UserName, write_base64_line, write_decimal_line,
    write_hex_line, write_text_line,
};

/// What signs with one leaf of an invitation's key, of the types LMS_SHA256_M32_H5 and LMOTS_SHA256_N32_W4, and with no
/// other. It has no `Debug`, so that no private element is printed by chance.
#[derive(Drop)]
pub struct Token {
    /// The team that invites.
    pub team: LinkName,
    pub kind: InviteKind,
    /// Whose device the invitation is for; nobody where it is for a member.
    pub user: Option<UserName>,
    /// The public key of the invitation.
    pub public: PublicKey,
    /// The leaf, below 32.
    pub leaf: u32,
    /// The randomizer C of RFC 8554 section 4.5.
    pub random: [u8; 32],
    /// The 67 private elements of the leaf, x[0] to x[66] of RFC 8554 section 4.2.
    pub secrets: Items<[u8; 32]>,
    /// The 5 nodes from the leaf up to below the root, path[0] to path[4] of RFC 8554 section 5.4.
    pub path: Items<[u8; 32]>,
}

impl Token {
    /// The text of the token's file.
    pub fn write(&self, alloc: Global) -> Result<Bytes, Memory>
        ensures text { IfOk result (λ bytes. bytes ≡ token_text self.now) }
        ensures read_again { IfOk result (λ bytes. IsToken self.now → (found : Option Token) → Reads IsToken token_text bytes found → found ≡ Some self.now) }
    {
        let mut out = Bytes::new(alloc);
        out.append(b"team-token 1\n")?;
        write_hex_line(&mut out, b"team", self.team.as_slice())?;
        write_text_line(&mut out, b"kind", word_of(self.kind))?;
        write_text_line(&mut out, b"user", user_field(&self.user))?;
        write_base64_line(&mut out, b"key", self.public.as_slice())?;
        write_decimal_line(&mut out, b"leaf", u64::from(self.leaf))?;
        write_hex_line(&mut out, b"random", &self.random)?;
        write_hashes(&mut out, b"x", self.secrets.as_slice())?;
        write_hashes(&mut out, b"path", self.path.as_slice())?;
        Ok(out)
    }
}

// What stands after `user` in a token file.
fn user_field(user: &Option<UserName>) -> &[u8]
    ensures { result.now ≡ user_field user.now }
{
    match user {
        None => b"-",
        Some(user) => user.as_slice(),
    }
}

// Appends a line of the word for each hash.
fn write_hashes(out: &mut Bytes, word: &[u8], hashes: &[[u8; 32]]) -> Result<(), Memory>
    ensures { OnOk result (out.new ≡ out.old ++ hash_lines word.now hashes.now) }
{
    for hash in hashes {
        write_hex_line(out, word, hash)?;
    }
    Ok(())
}
