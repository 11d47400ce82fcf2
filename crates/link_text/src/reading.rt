ghost use Rattle.std.specs.Prelude.{◌≡◌, ◌<◌, ◌≤◌, ◌↔◌, length, IfOk, Err};
ghost use Rattle.sha2.specs.Sha256.{sha256};
ghost use Rattle.tg_text.specs.Limits.{most_link_bytes};
ghost use Rattle.tg_text.specs.Reading.{Gives};
ghost use Rattle.link_text.specs.LinkText.{Reads, Spells};
ghost use Rattle.team_model.specs.declared.terms.Link.{Link};

use crate::fault::{LineFault, TextFault};
use crate::key_lines::next_key_lines;
use crate::naming::name_of;
use crate::next::{
    next_act, next_key, next_parents, next_signature, next_team, next_time, next_user,
};
use crate::rules::keeps_rules;
use acts::{Entry, device_of};
use std::alloc::Global;
use team_model::Link;
use tg_text::{Lines, LinkName, MOST_LINK_BYTES, strip_front};

/// The link that a text spells. Whether its signature verifies is not asked.
pub fn read_text(alloc: Global, bytes: &[u8]) -> Result<Link, TextFault>
    ensures found { IfOk result (λ l. Reads bytes.now l) }
    ensures only { (l : Link) → Reads bytes.now l → Gives TextFault.Memory l result }
    ensures too_long { (result ≡ Err TextFault.TooLong) ↔ (most_link_bytes < length bytes.now) }
    ensures bad_text { result ≡ Err TextFault.BadText → (length bytes.now ≤ most_link_bytes) × ((l : Link) → ¬ (Reads bytes.now l)) }
{
    if bytes.len() > MOST_LINK_BYTES {
        return Err(TextFault::TooLong);
    }
    let link = read_named(alloc, bytes, name_of(bytes))?;
    Ok(link)
}

// The link that a text with this name spells, which isn't too long.
pub(crate) fn read_named(alloc: Global, bytes: &[u8], name: LinkName) -> Result<Link, LineFault>
    requires short { length bytes.now ≤ most_link_bytes }
    requires named { name ≡ sha256 bytes.now }
    ensures found { IfOk result (λ l. Reads bytes.now l) }
    ensures only { (l : Link) → Reads bytes.now l → Gives LineFault.Memory l result }
{
    let link = read_fields(alloc, bytes, name)?;
    if keeps_rules(&link) {
        Ok(link)
    } else {
        Err(LineFault::BadText)
    }
}

// The link with the fields of a text of this name, whether or not it keeps the rules on fields together.
fn read_fields(alloc: Global, bytes: &[u8], name: LinkName) -> Result<Link, LineFault>
    requires named { name ≡ sha256 bytes.now }
    ensures found { IfOk result (λ l. Spells bytes.now l) }
    ensures only { (l : Link) → Spells bytes.now l → Gives LineFault.Memory l result }
{
    let Some(rest) = strip_front(bytes, b"team-link 1\n") else {
        return Err(LineFault::BadText);
    };
    let mut lines = Lines::new(rest);
    let team = next_team(&mut lines)?;
    let prev = next_parents(alloc, &mut lines)?;
    let user = next_user(&mut lines)?;
    let key = next_key(&mut lines)?;
    let time = next_time(&mut lines)?;
    let act = next_act(alloc, &mut lines)?;
    let key_lines = next_key_lines(alloc, &mut lines)?;
    let signature = next_signature(alloc, &mut lines)?;
    if !lines.rest().is_empty() {
        return Err(LineFault::BadText);
    }
    let entry = Entry {
        user,
        device: device_of(&key),
        time,
        act,
        lines: key_lines,
    };
    Ok(Link {
        team,
        prev,
        key,
        entry,
        signature,
        name,
    })
}
