//! The links of a team file: each is of the team and verifies, and each stands behind the one whose name is before its own.
ghost use Rattle.std.specs.Prelude.{◌↔◌, ◌≡◌, true, IsTrue, IfOk};
ghost use Rattle.std.specs.Option.{option_map_or};
ghost use Rattle.link_text.specs.LinkText.{IsValid};
ghost use Rattle.team_files.specs.Frames.{Gives, MayFollow, last_name, may_stand};
ghost use Rattle.team_model.specs.declared.terms.Link.{Link};
ghost use Rattle.team_sets.specs.Names.{name_lt};

use crate::fault::FileFault;
use link_text::{TeamLinkFault, read_of_team};
use std::alloc::Global;
use team_model::Link;
use tg_text::{LinkName, MOST_LINKS};

/// The link that a text is, where it is one of the team. Its signature is verified here, and nowhere again.
pub fn read_link_of(alloc: Global, team: &LinkName, bytes: &[u8]) -> Result<Link, FileFault>
    ensures found { IfOk result (λ link. IsValid team.now bytes.now link) }
    ensures only { (link : Link) → IsValid team.now bytes.now link → Gives link result }
{
    match read_of_team(alloc, bytes, team) {
        Ok(link) => Ok(link),
        Err(TeamLinkFault::Memory) => Err(FileFault::Memory),
        Err(_) => Err(FileFault::BadFile),
    }
}

/// Whether a further link may stand behind the links: the team has room for it, and the names ascend.
pub fn may_follow(links: &[Link], link: &Link) -> bool
    ensures { IsTrue result ↔ MayFollow links.now link.now }
{
    may_stand(links.len(), last_name(links), &link.name)
}

/// Whether a name may stand after so many links, of which the last has the other name.
pub fn may_stand(count: usize, last: Option<LinkName>, name: &LinkName) -> bool
    ensures { result ≡ may_stand count last name.now }
{
    count < MOST_LINKS && is_after(last, name)
}

// Whether the name is after the other one, if there is one.
fn is_after(last: Option<LinkName>, name: &LinkName) -> bool
    ensures { result ≡ option_map_or (λ m. name_lt m name.now) last true }
{
    match last {
        None => true,
        Some(last) => last.cmp(name).is_lt(),
    }
}

// The name of the last link, if there is one.
fn last_name(links: &[Link]) -> Option<LinkName>
    ensures { result ≡ last_name links.now }
{
    match links {
        [] => None,
        [.., last] => Some(last.name),
    }
}
