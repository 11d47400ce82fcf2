ghost use Rattle.team_model.specs.KeyLineRows.{FirstKeysRow, FoundingKeysRow, FullRow, RekeyersRow, RemovalRow, TaintedRecipientRow, UnfitBoxesRow, UnfitNewsRow, UnlistedAuthorRow, WantedKeysRow};

/// Worked `new` lines: the first keys of a team, lines that don't fit, and who may bring them.
#[tactic(auto, unfolding(crate::specs::KeyLines::lined, crate::specs::KeyLines::with_lines))]
pub fn worked_new_lines()
    ensures first { FirstKeysRow }
    ensures founding { FoundingKeysRow }
    ensures unfit { UnfitNewsRow }
    ensures wanted { WantedKeysRow }
    ensures rekeyers { RekeyersRow }
{}

/// Worked `box` lines: lines that don't fit, what a tainted key is sealed, and what is where no box more may be held.
#[tactic(auto, unfolding(crate::specs::KeyLines::lined, crate::specs::KeyLines::with_lines))]
pub fn worked_box_lines()
    ensures unfit { UnfitBoxesRow }
    ensures tainted { TaintedRecipientRow }
    ensures full { FullRow }
{}

/// The keys after a removal, and authors who aren't listed, or aren't after their own act.
#[tactic(auto, unfolding(crate::specs::KeyLines::lined, crate::specs::KeyLines::with_lines))]
pub fn worked_removal_lines()
    ensures removal { RemovalRow }
    ensures unlisted { UnlistedAuthorRow }
{}
