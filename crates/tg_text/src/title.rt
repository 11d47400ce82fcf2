ghost use Rattle.std.specs.Prelude.{◌≡◌, ◌↔◌, IsTrue, IsSome, IfSome};
ghost use Rattle.std.specs.List.{list_all};
ghost use Rattle.tg_text.specs.Spelling.{IsTitle, is_printing};

use crate::text::Text;
use std::marker::Model;
use std::str;

/// A title, 1 to 128 bytes of UTF-8, seen as its bytes.
#[derive(Clone, Copy, Debug, PartialEq, Eq, PartialOrd, Ord, Hash)]
pub struct Title {
    text: Text<128>,
}

impl Model for Title {
    ghost use Rattle.std.specs.Prelude.{ℕ, List};
    ghost use Rattle.tg_text.specs.Spelling.{IsTitle};

    ghost Value = { List ℕ };

    ghost view = { λ it. it.text };

    ghost invariant = { λ it. IsTitle it.text };

    ghost inverse = { λ text. record { text = text } };
}

impl Title {
    /// The title that a text spells: the text itself. It may begin or end with a space. It takes no memory.
    pub fn read(text: &[u8]) -> Option<Title>
        ensures exact { IsSome result ↔ IsTitle text.now }
        ensures found { IfSome result (λ it. it ≡ text.now) }
    {
        if !is_title(text) {
            return None;
        }
        Some(Title {
            text: Text::new(text),
        })
    }

    /// The bytes of the text, which is UTF-8.
    pub fn as_slice(&self) -> &[u8]
        ensures bytes { result.now ≡ self.now }
        ensures title { IsTitle self.now }
    {
        self.text.as_slice()
    }
}

// Whether a text is a title.
fn is_title(text: &[u8]) -> bool
    ensures { IsTrue result ↔ IsTitle text.now }
{
    !text.is_empty() && text.len() <= 128 && str::from_utf8(text).is_ok() && are_printing(text)
}

fn are_printing(text: &[u8]) -> bool
    ensures { result ≡ list_all is_printing text.now }
{
    text.iter().all(|byte| is_printing(*byte))
}

fn is_printing(byte: u8) -> bool
    ensures { result ≡ is_printing byte }
{
    byte >= b' ' && byte != 0x7f
}
