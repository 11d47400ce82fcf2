//! The rules on the fields of a link together.
ghost use Rattle.std.specs.Prelude.{◌↔◌, IsTrue};
ghost use Rattle.acts.specs.ActText.{IsFound};
ghost use Rattle.link_text.specs.LinkText.{Ascends, KeepsRules};

use acts::Act;
use team_model::Link;
use tg_text::LinkName;

// How many parents a link has at most.
const PARENTS: usize = 64;

pub(crate) fn keeps_rules(link: &Link) -> bool
    ensures { IsTrue result ↔ KeepsRules link.now }
{
    let is_root = link.prev.is_empty();
    link.prev.len() <= PARENTS
        && ascends(link.prev.as_slice())
        && is_root == link.team.is_none()
        && is_root == is_found(&link.entry.act)
}

fn is_found(act: &Act) -> bool
    ensures { IsTrue result ↔ IsFound act.now }
{
    matches!(act, Act::Found { .. })
}

/// Whether each name is before the next.
pub fn ascends(names: &[LinkName]) -> bool
    ensures { IsTrue result ↔ Ascends names.now }
{
    for i in 1..names.len() {
        let ascends = names[i - 1].cmp(&names[i]).is_lt();
        if !ascends {
            return false;
        }
    }
    true
}
