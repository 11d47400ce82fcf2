//! Whether a text is held.
ghost use Rattle.std.specs.Prelude.{◌≡◌, ◌↔◌, IsTrue};
ghost use Rattle.std.specs.List.{AllByRecursion};
ghost use Rattle.sha2.specs.Sha256.{sha256};
ghost use Rattle.team_sets.specs.OrderLaws.{IsSet};
ghost use Rattle.team_model.specs.Judging.{name_of};
ghost use Rattle.link_text.specs.LinkText.{text};
ghost use Rattle.link_graph.specs.Taking.{HasText};

use crate::holding::Holding;
use tg_text::LinkName;

/// Whether this very text, which has this name, is held.
pub(crate) fn has_text(holding: &Holding, bytes: &[u8], name: &LinkName) -> bool
    requires set { IsSet name_of holding.now }
    requires texts { AllByRecursion (λ l. l.name ≡ sha256 (text l)) holding.now }
    requires named { name.now ≡ sha256 bytes.now }
    ensures { IsTrue result ↔ HasText holding.now bytes.now }
{
    match holding.text_of(name) {
        Some(text) => text == bytes,
        None => false,
    }
}
