ghost use Rattle.link_text.specs.LinkText.{LinkIsSpelledOnce};
ghost use Rattle.link_text.specs.TeamFile.{FileIsOfSet};

/// A text is that of one link.
pub fn link_is_spelled_once()
    ensures { LinkIsSpelledOnce }
{}

/// The team file depends on which links are in the set alone.
pub fn file_is_of_set()
    ensures { FileIsOfSet }
{}
