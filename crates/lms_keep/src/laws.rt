//! Laws on key files, for the proofs of the crates above. The functions do nothing.
ghost use Rattle.lms_keep.specs.KeyText.{KeyIsSpelledOnce};
ghost use Rattle.lms_keep.specs.Making.{NewKeyHasAFile};

/// A text is that of one key.
pub fn key_is_spelled_once()
    ensures { KeyIsSpelledOnce }
{}

/// The text of a key made of three words is that key's file, so that it is read again.
pub fn new_key_has_a_file()
    ensures { NewKeyHasAFile }
{}
