ghost use Rattle.std.specs.Prelude.{◌≡◌};
ghost use Rattle.handshake.specs.Greetings.{shown};

use crate::fault::GreetFault;
use crate::message::Claim;
use acts::device_of;
use tg_text::{Bytes, DeviceId};

/// What an end does next.
#[derive(Debug, Drop)]
pub enum Next {
    /// It has this text signed by its own device, and hands the signature to `Greeting::signed`.
    Sign(Bytes),
    /// It sends this message.
    Send(Bytes),
    /// Nothing: the greeting is over on this end.
    Over,
}

/// How far an end is.
#[derive(Clone, Copy, Debug, PartialEq, Eq)]
pub enum GreetState {
    /// It has sent its claim.
    Claimed,
    /// This device has claimed to be a member's, and is to prove it.
    Proving(DeviceId),
    /// This device has proved it. The end hasn't heard yet that it is accepted itself.
    Accepted(DeviceId),
    /// Both have been accepted, as far as this end knows.
    Ended(DeviceId),
    /// A message was refused, by this end or the other.
    Refused,
}

// How far an end is, with what it has to remember.
#[derive(Clone, Copy, Debug)]
pub(crate) enum Stage {
    Claimed,
    // The end has the text to sign for the device of this claim.
    Asked(Claim),
    // Its proof is made, and that of the device of this claim is awaited.
    Proved(Claim),
    Accepted(DeviceId),
    Ended(DeviceId),
    Refused,
}

impl Stage {
    // What is shown of it.
    pub(crate) fn shown(&self) -> GreetState
        ensures { result ≡ shown self.now }
    {
        match self {
            Stage::Claimed => GreetState::Claimed,
            Stage::Asked(claim) => GreetState::Proving(device_of(&claim.key)),
            Stage::Proved(claim) => GreetState::Proving(device_of(&claim.key)),
            Stage::Accepted(device) => GreetState::Accepted(*device),
            Stage::Ended(device) => GreetState::Ended(*device),
            Stage::Refused => GreetState::Refused,
        }
    }
}

// What an end answers to a message, and how far it is then.
#[derive(Debug, Drop)]
pub(crate) struct Reaction {
    pub(crate) answer: Result<Next, GreetFault>,
    pub(crate) stage: Stage,
}
