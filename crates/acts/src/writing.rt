//! Writing acts: the word, and then the fields, each after a space.
ghost use Rattle.std.specs.Prelude.{◌≡◌, ◌++◌, ◌∷◌, List, ℕ, codes, OnOk, OnErr};
ghost use Rattle.tg_text.specs.KeySpelling.{spell_scope};
ghost use Rattle.tg_text.specs.Spelling.{spell_base64, spell_decimal, spell_hex};
ghost use Rattle.acts.specs.ActText.{spell_act, spell_kind};
ghost use Rattle.acts.specs.declared.entry.Act.TheVariants.{Found, AddMember, RemoveMember, AddRole, RemoveRole, GiveRole, TakeRole, AddDevice, RemoveDevice, InviteMember, InviteDevice, Revoke, AdmitMember, AdmitDevice, Rotate};

use crate::entry::{Act, InviteKind};
use tg_text::{
    Bytes, DeviceId, Memory, PublicKey, RoleName, Scope, Title, UserName, write_base64,
    write_decimal, write_hex, write_scope,
};

impl Act {
    /// Appends the act's text.
    pub fn write(&self, out: &mut Bytes) -> Result<(), Memory>
        ensures ok { OnOk result (out.new ≡ out.old ++ spell_act self.now) }
        ensures err { OnErr result (out.new ≡ out.old) }
    {
        let before = out.len();
        let written = self.extend(out);
        out.keep_whole(before, written)
    }

    // As `write`, but some of the text stays where memory is short. So it is with all that follow.
    fn extend(&self, out: &mut Bytes) -> Result<(), Memory>
        ensures ok { OnOk result (out.new ≡ out.old ++ spell_act self.now) }
        ensures err { OnErr result ((more : List ℕ) × (out.new ≡ out.old ++ more)) }
    {
        match self {
            Act::Found { seal, title } => write_found(out, seal, title),
            Act::AddMember { user, key, seal } => write_add_member(out, user, key, seal),
            Act::RemoveMember { user } => write_remove_member(out, user),
            Act::AddRole { role } => write_add_role(out, role),
            Act::RemoveRole { role } => write_remove_role(out, role),
            Act::GiveRole { user, role } => write_give_role(out, user, role),
            Act::TakeRole { user, role } => write_take_role(out, user, role),
            Act::AddDevice { key, seal } => write_add_device(out, key, seal),
            Act::RemoveDevice { user, hex } => write_remove_device(out, user, hex),
            Act::InviteMember { key, uses, expiry } => write_invite_member(
                out, key, *uses, *expiry,
            ),
            Act::InviteDevice { key, uses, expiry } => write_invite_device(
                out, key, *uses, *expiry,
            ),
            Act::Revoke { kind, hex } => write_revoke(out, kind, hex),
            Act::AdmitMember {
                user,
                key,
                seal,
                by,
                proof,
            } => write_admit_member(out, user, key, seal, by, proof),
            Act::AdmitDevice {
                key,
                seal,
                by,
                proof,
            } => write_admit_device(out, key, seal, by, proof),
            Act::Rotate { scope } => write_rotate(out, scope),
            Act::Seal => out.append(b"seal"),
            Act::Title { title } => write_title(out, title),
            Act::Join => out.append(b"join"),
        }
    }
}

fn write_found(out: &mut Bytes, seal: &[u8; 32], title: &Title) -> Result<(), Memory>
    ensures ok { OnOk result (out.new ≡ out.old ++ spell_act (Found seal.now title.now)) }
    ensures err { OnErr result ((more : List ℕ) × (out.new ≡ out.old ++ more)) }
{
    out.append(b"found")?;
    add_hex(out, seal)?;
    add_text(out, title.as_slice())
}

fn write_add_member(
    out: &mut Bytes,
    user: &UserName,
    key: &PublicKey,
    seal: &[u8; 32],
) -> Result<(), Memory>
    ensures ok { OnOk result (out.new ≡ out.old ++ spell_act (AddMember user.now key.now seal.now)) }
    ensures err { OnErr result ((more : List ℕ) × (out.new ≡ out.old ++ more)) }
{
    out.append(b"add_member")?;
    add_text(out, user.as_slice())?;
    add_device(out, key, seal)
}

fn write_remove_member(out: &mut Bytes, user: &UserName) -> Result<(), Memory>
    ensures ok { OnOk result (out.new ≡ out.old ++ spell_act (RemoveMember user.now)) }
    ensures err { OnErr result ((more : List ℕ) × (out.new ≡ out.old ++ more)) }
{
    out.append(b"remove_member")?;
    add_text(out, user.as_slice())
}

fn write_add_role(out: &mut Bytes, role: &RoleName) -> Result<(), Memory>
    ensures ok { OnOk result (out.new ≡ out.old ++ spell_act (AddRole role.now)) }
    ensures err { OnErr result ((more : List ℕ) × (out.new ≡ out.old ++ more)) }
{
    out.append(b"add_role")?;
    add_text(out, role.as_slice())
}

fn write_remove_role(out: &mut Bytes, role: &RoleName) -> Result<(), Memory>
    ensures ok { OnOk result (out.new ≡ out.old ++ spell_act (RemoveRole role.now)) }
    ensures err { OnErr result ((more : List ℕ) × (out.new ≡ out.old ++ more)) }
{
    out.append(b"remove_role")?;
    add_text(out, role.as_slice())
}

fn write_give_role(out: &mut Bytes, user: &UserName, role: &RoleName) -> Result<(), Memory>
    ensures ok { OnOk result (out.new ≡ out.old ++ spell_act (GiveRole user.now role.now)) }
    ensures err { OnErr result ((more : List ℕ) × (out.new ≡ out.old ++ more)) }
{
    out.append(b"give_role")?;
    add_text(out, user.as_slice())?;
    add_text(out, role.as_slice())
}

fn write_take_role(out: &mut Bytes, user: &UserName, role: &RoleName) -> Result<(), Memory>
    ensures ok { OnOk result (out.new ≡ out.old ++ spell_act (TakeRole user.now role.now)) }
    ensures err { OnErr result ((more : List ℕ) × (out.new ≡ out.old ++ more)) }
{
    out.append(b"take_role")?;
    add_text(out, user.as_slice())?;
    add_text(out, role.as_slice())
}

fn write_add_device(out: &mut Bytes, key: &PublicKey, seal: &[u8; 32]) -> Result<(), Memory>
    ensures ok { OnOk result (out.new ≡ out.old ++ spell_act (AddDevice key.now seal.now)) }
    ensures err { OnErr result ((more : List ℕ) × (out.new ≡ out.old ++ more)) }
{
    out.append(b"add_device")?;
    add_device(out, key, seal)
}

fn write_remove_device(out: &mut Bytes, user: &UserName, hex: &DeviceId) -> Result<(), Memory>
    ensures ok { OnOk result (out.new ≡ out.old ++ spell_act (RemoveDevice user.now hex.now)) }
    ensures err { OnErr result ((more : List ℕ) × (out.new ≡ out.old ++ more)) }
{
    out.append(b"remove_device")?;
    add_text(out, user.as_slice())?;
    add_hex(out, hex.as_slice())
}

fn write_invite_member(
    out: &mut Bytes,
    key: &PublicKey,
    uses: u32,
    expiry: u64,
) -> Result<(), Memory>
    ensures ok { OnOk result (out.new ≡ out.old ++ spell_act (InviteMember key.now uses expiry)) }
    ensures err { OnErr result ((more : List ℕ) × (out.new ≡ out.old ++ more)) }
{
    out.append(b"invite_member")?;
    add_invitation(out, key, uses, expiry)
}

fn write_invite_device(
    out: &mut Bytes,
    key: &PublicKey,
    uses: u32,
    expiry: u64,
) -> Result<(), Memory>
    ensures ok { OnOk result (out.new ≡ out.old ++ spell_act (InviteDevice key.now uses expiry)) }
    ensures err { OnErr result ((more : List ℕ) × (out.new ≡ out.old ++ more)) }
{
    out.append(b"invite_device")?;
    add_invitation(out, key, uses, expiry)
}

fn write_revoke(out: &mut Bytes, kind: &InviteKind, hex: &[u8; 32]) -> Result<(), Memory>
    ensures ok { OnOk result (out.new ≡ out.old ++ spell_act (Revoke kind.now hex.now)) }
    ensures err { OnErr result ((more : List ℕ) × (out.new ≡ out.old ++ more)) }
{
    out.append(b"revoke")?;
    add_text(out, kind.as_slice())?;
    add_hex(out, hex)
}

fn write_admit_member(
    out: &mut Bytes,
    user: &UserName,
    key: &PublicKey,
    seal: &[u8; 32],
    by: &PublicKey,
    proof: &Bytes,
) -> Result<(), Memory>
    ensures ok { OnOk result (out.new ≡ out.old ++ spell_act (AdmitMember user.now key.now seal.now by.now proof.now)) }
    ensures err { OnErr result ((more : List ℕ) × (out.new ≡ out.old ++ more)) }
{
    out.append(b"admit_member")?;
    add_text(out, user.as_slice())?;
    add_admission(out, key, seal, by, proof)
}

fn write_admit_device(
    out: &mut Bytes,
    key: &PublicKey,
    seal: &[u8; 32],
    by: &PublicKey,
    proof: &Bytes,
) -> Result<(), Memory>
    ensures ok { OnOk result (out.new ≡ out.old ++ spell_act (AdmitDevice key.now seal.now by.now proof.now)) }
    ensures err { OnErr result ((more : List ℕ) × (out.new ≡ out.old ++ more)) }
{
    out.append(b"admit_device")?;
    add_admission(out, key, seal, by, proof)
}

fn write_rotate(out: &mut Bytes, scope: &Scope) -> Result<(), Memory>
    ensures ok { OnOk result (out.new ≡ out.old ++ spell_act (Rotate scope.now)) }
    ensures err { OnErr result ((more : List ℕ) × (out.new ≡ out.old ++ more)) }
{
    out.append(b"rotate")?;
    add_scope(out, scope)
}

fn write_title(out: &mut Bytes, title: &Title) -> Result<(), Memory>
    ensures ok { OnOk result (out.new ≡ out.old ++ spell_act (Act.Title title.now)) }
    ensures err { OnErr result ((more : List ℕ) × (out.new ≡ out.old ++ more)) }
{
    out.append(b"title")?;
    add_text(out, title.as_slice())
}

// A device: its key and its seal, each after a space.
fn add_device(out: &mut Bytes, key: &PublicKey, seal: &[u8; 32]) -> Result<(), Memory>
    ensures ok { OnOk result (out.new ≡ out.old ++ 32 ∷ (spell_base64 key.now ++ 32 ∷ spell_hex seal.now)) }
    ensures err { OnErr result ((more : List ℕ) × (out.new ≡ out.old ++ more)) }
{
    add_base64(out, key.as_slice())?;
    add_hex(out, seal)
}

// The limits of an invitation, after its key.
fn add_invitation(out: &mut Bytes, key: &PublicKey, uses: u32, expiry: u64) -> Result<(), Memory>
    ensures ok { OnOk result (out.new ≡ out.old ++ 32 ∷ (spell_base64 key.now ++ 32 ∷ (spell_decimal uses ++ 32 ∷ spell_decimal expiry))) }
    ensures err { OnErr result ((more : List ℕ) × (out.new ≡ out.old ++ more)) }
{
    add_base64(out, key.as_slice())?;
    add_decimal(out, u64::from(uses))?;
    add_decimal(out, expiry)
}

// A device that comes in, and the leaf by which it does.
fn add_admission(
    out: &mut Bytes,
    key: &PublicKey,
    seal: &[u8; 32],
    by: &PublicKey,
    proof: &Bytes,
) -> Result<(), Memory>
    ensures ok { OnOk result (out.new ≡ out.old ++ 32 ∷ (spell_base64 key.now ++ 32 ∷ (spell_hex seal.now ++ 32 ∷ (spell_base64 by.now ++ 32 ∷ spell_base64 proof.now)))) }
    ensures err { OnErr result ((more : List ℕ) × (out.new ≡ out.old ++ more)) }
{
    add_device(out, key, seal)?;
    add_leaf(out, by, proof)
}

// A leaf of an invitation: its key and the proof.
fn add_leaf(out: &mut Bytes, by: &PublicKey, proof: &Bytes) -> Result<(), Memory>
    ensures ok { OnOk result (out.new ≡ out.old ++ 32 ∷ (spell_base64 by.now ++ 32 ∷ spell_base64 proof.now)) }
    ensures err { OnErr result ((more : List ℕ) × (out.new ≡ out.old ++ more)) }
{
    add_base64(out, by.as_slice())?;
    add_base64(out, proof.as_slice())
}

// A field that is its own spelling, after a space.
fn add_text(out: &mut Bytes, text: &[u8]) -> Result<(), Memory>
    ensures ok { OnOk result (out.new ≡ out.old ++ 32 ∷ text.now) }
    ensures err { OnErr result ((more : List ℕ) × (out.new ≡ out.old ++ more)) }
{
    out.append(b" ")?;
    out.append(text)
}

fn add_hex(out: &mut Bytes, bytes: &[u8]) -> Result<(), Memory>
    ensures ok { OnOk result (out.new ≡ out.old ++ 32 ∷ spell_hex bytes.now) }
    ensures err { OnErr result ((more : List ℕ) × (out.new ≡ out.old ++ more)) }
{
    out.append(b" ")?;
    write_hex(out, bytes)
}

fn add_base64(out: &mut Bytes, bytes: &[u8]) -> Result<(), Memory>
    ensures ok { OnOk result (out.new ≡ out.old ++ 32 ∷ spell_base64 bytes.now) }
    ensures err { OnErr result ((more : List ℕ) × (out.new ≡ out.old ++ more)) }
{
    out.append(b" ")?;
    write_base64(out, bytes)
}

fn add_decimal(out: &mut Bytes, number: u64) -> Result<(), Memory>
    ensures ok { OnOk result (out.new ≡ out.old ++ 32 ∷ spell_decimal number) }
    ensures err { OnErr result ((more : List ℕ) × (out.new ≡ out.old ++ more)) }
{
    out.append(b" ")?;
    write_decimal(out, number)
}

fn add_scope(out: &mut Bytes, scope: &Scope) -> Result<(), Memory>
    ensures ok { OnOk result (out.new ≡ out.old ++ 32 ∷ spell_scope scope.now) }
    ensures err { OnErr result ((more : List ℕ) × (out.new ≡ out.old ++ more)) }
{
    out.append(b" ")?;
    write_scope(out, scope)
}
