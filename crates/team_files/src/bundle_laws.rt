ghost use Rattle.team_files.specs.Pieces.{BundleHasItems, BundleIsReadOnce, PiecesDontMatter};

/// The bytes of a bundle have one list of items.
pub fn bundle_is_read_once()
    ensures once { BundleIsReadOnce }
    ensures some { BundleHasItems }
{}

/// The items of a bundle are the same in whatever pieces its bytes come.
pub fn pieces_do_not_matter()
    ensures { PiecesDontMatter }
{}
