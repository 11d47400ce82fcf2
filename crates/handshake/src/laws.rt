//! Laws on greetings. The functions do nothing.
ghost use Rattle.handshake.specs.Histories.{NoneEndsUnaccepted, NoneIsAcceptedUnproved};
ghost use Rattle.handshake.specs.Messages.{MessageIsSpelledOnce, SignedTextsDiffer};

/// No two messages have one text.
pub fn messages_are_spelled_once()
    ensures { MessageIsSpelledOnce }
{}

/// No text is signed for two teams, nonces or pairs of devices.
pub fn signed_texts_differ()
    ensures { SignedTextsDiffer }
{}

/// Whatever calls come, a greeting is accepted only by a claim and then a proof over its own nonce, which verifies under the claimed key of
/// a device that was listed when the claim was taken and when the proof was.
pub fn none_is_accepted_unproved()
    ensures { NoneIsAcceptedUnproved }
{}

/// Whatever calls come, a greeting is ended with a device only after it was accepted with it, by a welcome.
pub fn none_ends_unaccepted()
    ensures { NoneEndsUnaccepted }
{}
