//! Laws on leaves and their paths, for the proofs of the crates above. The functions do nothing.
ghost use Rattle.lms_tree.specs.Laws.{JoinedVerifies, KeyHasItsParts, PathLeadsToTheRoot};

/// The public key of a tree bears its types, its id and its root.
pub fn key_has_its_parts()
    ensures { KeyHasItsParts }
{}

/// A leaf's own path leads from its one-time key to the root.
pub fn path_leads_to_the_root()
    ensures { PathLeadsToTheRoot }
{}

/// A signature put together of its parts verifies exactly where these lead to the key's root.
pub fn joined_verifies()
    ensures { JoinedVerifies }
{}
