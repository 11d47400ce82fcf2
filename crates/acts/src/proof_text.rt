//! What the proof of an admission signs.
ghost use Rattle.std.specs.Prelude.{◌≡◌, List, ℕ, IfOk};
ghost use Rattle.acts.specs.ProofText.{proof_body};

use crate::entry::InviteKind;
use std::alloc::Global;
use tg_text::{
    Bytes, LinkName, Memory, PublicKey, UserName, write_base64_line, write_hex_line,
    write_text_line,
};

/// The text that the proof of an admission signs: six lines. `team` is that of the link, `kind` that of the invitation,
/// and `user`, `key` and `seal` are of the device that comes in.
pub fn proof_body(
    alloc: Global,
    team: &LinkName,
    kind: InviteKind,
    user: &UserName,
    key: &PublicKey,
    seal: &[u8; 32],
) -> Result<Bytes, Memory>
    ensures { IfOk result (λ it. it ≡ proof_body (record { team = team.now; kind = kind; user = user.now; key = key.now; seal = seal.now })) }
{
    let mut out = Bytes::new(alloc);
    write_text_line(&mut out, b"team-proof", b"1")?;
    write_hex_line(&mut out, b"team", team.as_slice())?;
    write_text_line(&mut out, b"kind", kind.as_slice())?;
    write_text_line(&mut out, b"user", user.as_slice())?;
    write_base64_line(&mut out, b"key", key.as_slice())?;
    write_hex_line(&mut out, b"seal", seal)?;
    Ok(out)
}
