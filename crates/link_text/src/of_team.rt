//! The links of one team, each read by one way: its name is found once, and the team is asked before the signature.
ghost use Rattle.std.specs.Prelude.{◌≡◌, ◌≤◌, ◌↔◌, length, IsTrue};
ghost use Rattle.sha2.specs.Sha256.{sha256};
ghost use Rattle.tg_text.specs.Limits.{most_link_bytes};
ghost use Rattle.link_text.specs.LinkText.{IsOfTeam};
ghost use Rattle.link_text.specs.TeamReading.{FindsOfTeam};

use crate::fault::TeamLinkFault;
use crate::naming::name_of;
use crate::proving::proves;
use crate::reading::read_named;
use std::alloc::Global;
use team_model::Link;
use tg_text::{LinkName, MOST_LINK_BYTES};

/// Whether a link is of the team: it names it, or it is the root that the team is named after. It takes no memory.
pub fn is_of_team(link: &Link, team: &LinkName) -> bool
    ensures { IsTrue result ↔ IsOfTeam team.now link.now }
{
    match &link.team {
        Some(named) => named == team,
        None => link.name == *team,
    }
}

/// The link of the team that a text is. One that is too long isn't hashed, and a link of another team isn't verified.
pub fn read_of_team(alloc: Global, bytes: &[u8], team: &LinkName) -> Result<Link, TeamLinkFault>
    ensures { FindsOfTeam team.now bytes.now result }
{
    if bytes.len() > MOST_LINK_BYTES {
        return Err(TeamLinkFault::TooLong);
    }
    read_named_of_team(alloc, bytes, name_of(bytes), team)
}

/// As `read_of_team`, where the name of the text, which isn't too long, is known already. It isn't hashed again.
pub fn read_named_of_team(
    alloc: Global,
    bytes: &[u8],
    name: LinkName,
    team: &LinkName,
) -> Result<Link, TeamLinkFault>
    requires short { length bytes.now ≤ most_link_bytes }
    requires named { name ≡ sha256 bytes.now }
    ensures { FindsOfTeam team.now bytes.now result }
{
    let link = read_named(alloc, bytes, name)?;
    if !is_of_team(&link, team) {
        return Err(TeamLinkFault::OtherTeam);
    }
    if proves(alloc, &link, bytes)? {
        Ok(link)
    } else {
        Err(TeamLinkFault::BadSignature)
    }
}
