ghost use Rattle.std.specs.Prelude.{◌≡◌, map, string_bytes};
ghost use Rattle.std.specs.List.{list_all};
ghost use Rattle.team_words.specs.Words.{is_field};

/// A word that may be given for a field.
pub(crate) fn is_field(word: &str) -> bool
    ensures { result ≡ is_field word.now }
{
    match word.as_bytes() {
        [] => false,
        [first, ..] => *first != b'-',
    }
}

/// Whether each word may be given for a field.
pub(crate) fn are_fields(words: &[String]) -> bool
    ensures { result ≡ list_all is_field (map string_bytes words.now) }
{
    for word in words {
        if !is_field(word.as_str()) {
            return false;
        }
    }
    true
}
