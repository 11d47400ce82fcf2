ghost use Rattle.std.specs.Prelude.{◌≡◌, ◌↔◌, ◌≤◌, IsTrue, IsSome, IfSome, codes, length};
ghost use Rattle.std.specs.List.{list_all};
ghost use Rattle.tg_text.specs.Spelling.{is_letter_or_digit, is_name_byte, is_user_name};

use crate::text::Text;
use std::marker::Model;

/// The name of a user, 1 to 32 bytes of ASCII, seen as its bytes.
#[derive(Clone, Copy, Debug, PartialEq, Eq, PartialOrd, Ord, Hash)]
pub struct UserName {
    text: Text<32>,
}

impl Model for UserName {
    ghost use Rattle.std.specs.Prelude.{ℕ, List, IsTrue};
    ghost use Rattle.tg_text.specs.Spelling.{is_user_name};

    ghost Value = { List ℕ };

    ghost view = { λ it. it.text };

    ghost invariant = { λ it. IsTrue (is_user_name it.text) };

    ghost inverse = { λ text. record { text = text } };
}

impl UserName {
    /// The name that a text spells: the text itself. It takes no memory.
    pub fn read(text: &[u8]) -> Option<UserName>
        ensures exact { IsSome result ↔ IsTrue (is_user_name text.now) }
        ensures found { IfSome result (λ it. it ≡ text.now) }
    {
        if !is_user_name(text) {
            return None;
        }
        Some(UserName {
            text: Text::new(text),
        })
    }

    /// The bytes of the name, which are ASCII.
    pub fn as_slice(&self) -> &[u8]
        ensures bytes { result.now ≡ self.now }
        ensures name { IsTrue (is_user_name self.now) }
    {
        self.text.as_slice()
    }
}

/// The name of a role, 1 to 32 bytes of ASCII, seen as its bytes.
#[derive(Clone, Copy, Debug, PartialEq, Eq, PartialOrd, Ord, Hash)]
pub struct RoleName {
    text: Text<32>,
}

impl Model for RoleName {
    ghost use Rattle.std.specs.Prelude.{ℕ, List, IsTrue};
    ghost use Rattle.tg_text.specs.Spelling.{is_user_name};

    ghost Value = { List ℕ };

    ghost view = { λ it. it.text };

    ghost invariant = { λ it. IsTrue (is_user_name it.text) };

    ghost inverse = { λ text. record { text = text } };
}

impl RoleName {
    /// The role that each founder has.
    pub fn admin() -> RoleName
        ensures { result ≡ codes "admin" }
    {
        RoleName {
            text: Text::new(b"admin"),
        }
    }

    /// The name that a text spells: the text itself. It takes no memory.
    pub fn read(text: &[u8]) -> Option<RoleName>
        ensures exact { IsSome result ↔ IsTrue (is_user_name text.now) }
        ensures found { IfSome result (λ it. it ≡ text.now) }
    {
        if !is_user_name(text) {
            return None;
        }
        Some(RoleName {
            text: Text::new(text),
        })
    }

    /// The bytes of the name, which are ASCII.
    pub fn as_slice(&self) -> &[u8]
        ensures bytes { result.now ≡ self.now }
        ensures name { IsTrue (is_user_name self.now) }
    {
        self.text.as_slice()
    }
}

// Whether a text is a user's or a role's name.
fn is_user_name(text: &[u8]) -> bool
    ensures is { result ≡ is_user_name text.now }
    ensures fits { IsTrue result → length text.now ≤ 32 }
{
    match text {
        [] => false,
        [first, ..] => { text.len() <= 32 && is_letter_or_digit(*first) && are_name_bytes(text) }
    }
}

fn are_name_bytes(text: &[u8]) -> bool
    ensures { result ≡ list_all is_name_byte text.now }
{
    text.iter().all(|byte| is_name_byte(*byte))
}

fn is_letter_or_digit(byte: u8) -> bool
    ensures { result ≡ is_letter_or_digit byte }
{
    matches!(byte, b'a'..=b'z' | b'0'..=b'9')
}

fn is_name_byte(byte: u8) -> bool
    ensures { result ≡ is_name_byte byte }
{
    is_letter_or_digit(byte) || byte == b'_' || byte == b'.' || byte == b'-'
}
