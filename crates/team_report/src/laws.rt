ghost use Rattle.team_report.specs.KeysLaws.{OpenedKeysAreExact};
ghost use Rattle.team_report.specs.TextLaws.{TextsAreOfSet};

use team_model::text_is_of_set;

/// Two lists of the same links, in whatever order, have the same texts of log, heads and why.
pub fn texts_are_of_set()
    ensures { TextsAreOfSet }
{
    text_is_of_set();
}

/// The keys whose ids are printed of what a device opens are those of which it opens some secret, each once, in order.
pub fn opened_keys_are_exact()
    ensures { OpenedKeysAreExact }
{}
