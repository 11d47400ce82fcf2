//! A law on tokens, for the proofs of the crates above. The function does nothing.
ghost use Rattle.invitations.specs.Making.{MadeTokensAreTokens};

/// A token that is made of a key is one, so that it proves for its own leaf and its text is read again.
pub fn made_tokens_are_tokens()
    ensures { MadeTokensAreTokens }
{}
