ghost use Rattle.std.specs.Prelude.{◌≡◌, ◌≢◌, ◌++◌, ◌∷◌, ℕ, List, false, IfSome, IfNone, MatchOption};
ghost use Rattle.tg_text.specs.Spelling.{has_byte, has_newline};

use std::marker::Model;

/// The lines of a lent text, one after another. Contracts see the bytes that are left.
#[derive(Debug, Drop)]
pub struct Lines<'a> {
    left: &'a [u8],
}

impl<'a> Model for Lines<'a> {
    ghost use Rattle.std.specs.Prelude.{ℕ, List};

    ghost Value = { List ℕ };

    ghost view = { λ it. it.left.now };
}

impl<'a> Lines<'a> {
    /// All of the text is left to read.
    pub fn new(bytes: &'a [u8]) -> Lines<'a>
        ensures { result ≡ bytes.now }
    {
        Lines { left: bytes }
    }

    /// The next line, without its newline. Bytes that no newline ends are no line, and stay.
    pub fn next_line(&mut self) -> Option<&'a [u8]>
        ensures some { IfSome result (λ line. (has_newline line.now ≡ false) × (self.old ≡ line.now ++ 10 ∷ self.new)) }
        ensures none { IfNone result ((has_newline self.old ≡ false) × (self.new ≡ self.old)) }
    {
        match split_once(self.left, b'\n') {
            Some((line, after)) => {
                self.left = after;
                Some(line)
            }
            None => None,
        }
    }

    /// The field of the next line, where that is `WORD FIELD`. The field may be empty, and may have spaces. Any other text stays.
    pub fn take_field(&mut self, word: &[u8]) -> Option<&'a [u8]>
        ensures some { IfSome result (λ field. (has_newline field.now ≡ false) × (self.old ≡ word.now ++ 32 ∷ (field.now ++ 10 ∷ self.new))) }
        ensures none { IfNone result ((field rest : List ℕ) → self.old ≢ word.now ++ 32 ∷ (field ++ 10 ∷ rest)) }
        ensures stays { IfNone result (self.new ≡ self.old) }
    {
        let spaced = strip_front(self.left, word)?;
        let rest = strip_front(spaced, b" ")?;
        let (field, after) = split_once(rest, b'\n')?;
        self.left = after;
        Some(field)
    }

    /// The bytes that are left.
    pub fn rest(&self) -> &'a [u8]
        ensures { result.now ≡ self.now }
    {
        self.left
    }
}

/// What stands after the prefix, in a text that begins with it.
pub fn strip_front<'a>(text: &'a [u8], prefix: &[u8]) -> Option<&'a [u8]>
    ensures { MatchOption result ((rest : List ℕ) → text.now ≢ prefix.now ++ rest) (λ rest. text.now ≡ prefix.now ++ rest.now) }
{
    text.strip_prefix(prefix)
}

/// What stands before the first of a byte, and what after it.
pub fn split_once(text: &[u8], separator: u8) -> Option<(&[u8], &[u8])>
    ensures some { IfSome result (λ r. (has_byte separator r.0.now ≡ false) × (text.now ≡ r.0.now ++ separator ∷ r.1.now)) }
    ensures none { IfNone result (has_byte separator text.now ≡ false) }
{
    for i in 0..text.len() {
        if text[i] == separator {
            let (front, back) = text.split_at(i);
            return Some((front, back.split_at(1).1));
        }
    }
    None
}
