//! Writing messages, and the text that is signed.
ghost use Rattle.std.specs.Prelude.{◌≡◌, ◌++◌, ℕ, List, Option, IfOk, OnOk, Some};
ghost use Rattle.tg_text.specs.Reading.{Reads};
ghost use Rattle.tg_text.specs.Spelling.{IsHash};
ghost use Rattle.handshake.specs.Messages.{IsMessage, IsNamed, claim_lines, kind_line, message_text, signed_text, team_line};
ghost use Rattle.handshake.specs.declared.message.Content.TheVariants.{Claims, Proves, Welcomes, Refuses};
ghost use Rattle.handshake.specs.declared.message.Message.{Message};

use crate::fault::GreetFault;
use crate::message::{Claim, Kind};
use std::alloc::Global;
use tg_text::{
    Bytes, DeviceId, LinkName, Memory, write_base64_line, write_hex_line, write_text_line,
};

/// The message that says who an end is.
pub(crate) fn claim_text(alloc: Global, team: &LinkName, claim: &Claim) -> Result<Bytes, Memory>
    ensures { IfOk result (λ bytes. bytes ≡ message_text (record { team = team.now; content = Claims claim.now })) }
{
    let mut out = begin(alloc, team, Kind::Claim)?;
    write_text_line(&mut out, b"user", claim.user.as_slice())?;
    write_base64_line(&mut out, b"key", claim.key.as_slice())?;
    write_hex_line(&mut out, b"nonce", &claim.nonce)?;
    Ok(out)
}

/// The message that has a signature.
pub(crate) fn proof_text(alloc: Global, team: &LinkName, signature: &[u8]) -> Result<Bytes, Memory>
    ensures text { IfOk result (λ bytes. bytes ≡ message_text (record { team = team.now; content = Proves signature.now })) }
    ensures team { IsHash team.now }
{
    let mut out = begin(alloc, team, Kind::Proof)?;
    write_base64_line(&mut out, b"sign", signature)?;
    Ok(out)
}

/// The message that says that a proof is accepted.
pub(crate) fn welcome_text(alloc: Global, team: &LinkName) -> Result<Bytes, Memory>
    ensures { IfOk result (λ bytes. bytes ≡ message_text (record { team = team.now; content = Welcomes })) }
{
    begin(alloc, team, Kind::Welcome)
}

/// The message that says that a message was refused.
pub fn refuse_text(alloc: Global, team: &LinkName, fault: GreetFault) -> Result<Bytes, Memory>
    requires { IsNamed fault }
    ensures text { IfOk result (λ bytes. bytes ≡ message_text (record { team = team.now; content = Refuses fault })) }
    ensures read_again { IfOk result (λ bytes. (found : Option Message) → Reads IsMessage message_text bytes found
        → found ≡ Some (record { team = team.now; content = Refuses fault })) }
{
    let mut out = begin(alloc, team, Kind::Refuse)?;
    write_text_line(&mut out, b"fault", fault.as_slice())?;
    Ok(out)
}

// The first two lines of a message.
fn begin(alloc: Global, team: &LinkName, kind: Kind) -> Result<Bytes, Memory>
    ensures lines { IfOk result (λ bytes. bytes ≡ kind_line kind ++ team_line team.now) }
    ensures team { IsHash team.now }
{
    let name = team.as_slice();
    let mut out = Bytes::new(alloc);
    write_text_line(&mut out, b"team-greet 1", kind.as_slice())?;
    write_hex_line(&mut out, b"team", name)?;
    Ok(out)
}

/// What a device signs for another, over the nonce that the other has claimed with.
pub(crate) fn signed_text(
    alloc: Global,
    team: &LinkName,
    nonce: &[u8; 32],
    from: &DeviceId,
    to: &DeviceId,
) -> Result<Bytes, Memory>
    ensures { IfOk result (λ bytes. bytes ≡ signed_text (record { team = team.now; nonce = nonce.now; from = from.now; to = to.now })) }
{
    let mut out = Bytes::new(alloc);
    write_text_line(&mut out, b"team-greeting", b"1")?;
    write_hex_line(&mut out, b"team", team.as_slice())?;
    write_hex_line(&mut out, b"nonce", nonce)?;
    write_hex_line(&mut out, b"from", from.as_slice())?;
    write_hex_line(&mut out, b"to", to.as_slice())?;
    Ok(out)
}
