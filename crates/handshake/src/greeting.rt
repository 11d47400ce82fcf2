ghost use Rattle.std.specs.Prelude.{◌≡◌, IfOk, Option, Some};
ghost use Rattle.tg_text.specs.Reading.{Reads};
ghost use Rattle.tg_text.specs.Spelling.{IsPublicKey};
ghost use Rattle.handshake.specs.Greetings.{IsAsked, IsReadAgain, IsSign, Signs, Takes, claim_text, proved, shown, started};
ghost use Rattle.handshake.specs.Messages.{IsMessage, message_text};
ghost use Rattle.handshake.specs.declared.message.Message.{Message};
ghost use Rattle.handshake.specs.declared.message.Content.TheVariants.{Claims, Proves};

use crate::fault::GreetFault;
use crate::message::Claim;
use crate::reading::read_message;
use crate::stage::{GreetState, Next, Stage};
use crate::writing::{claim_text, proof_text};
use std::alloc::Global;
use std::marker::Model;
use team_state::TeamState;
use tg_text::{Bytes, LinkName, Memory, PublicKey, UserName};

/// One end of a greeting.
#[derive(Debug, Drop)]
pub struct Greeting {
    pub(crate) team: LinkName,
    pub(crate) own: Claim,
    pub(crate) stage: Stage,
}

impl Model for Greeting {
    ghost use Rattle.handshake.specs.Greetings.{End};

    ghost Value = { End };

    ghost view = { λ it. record { team = it.team; own = it.own; stage = it.stage } };
}

impl Greeting {
    /// An end of a team, of the device with this key, which claims to be this user's; and its claim, which it sends.
    ///
    /// The nonce is what the other end signs: it has to be drawn anew for each greeting.
    pub fn start(
        alloc: Global,
        team: LinkName,
        user: UserName,
        key: PublicKey,
        nonce: [u8; 32],
    ) -> Result<(Greeting, Bytes), Memory>
        ensures started { IfOk result (λ r. r.0 ≡ started team (record { user = user; key = key; nonce = nonce })) }
        ensures claim { IfOk result (λ r. r.1 ≡ claim_text r.0) }
        ensures read_again { IsPublicKey key → IfOk result (λ r. (found : Option Message) → Reads IsMessage message_text r.1 found
            → found ≡ Some (record { team = team; content = Claims (record { user = user; key = key; nonce = nonce }) })) }
    {
        let own = Claim { user, key, nonce };
        let claim = claim_text(alloc, &team, &own)?;
        let greeting = Greeting {
            team,
            own,
            stage: Stage::Claimed,
        };
        Ok((greeting, claim))
    }

    /// Takes a message of the other end, where the team is in this state.
    ///
    /// All faults but want of memory end the greeting; want of memory leaves it as it was.
    pub fn take(
        &mut self,
        alloc: Global,
        state: &TeamState,
        message: &[u8],
    ) -> Result<Next, GreetFault>
        ensures takes { Takes state.now message.now self.old self.new result }
        ensures asked { IfOk result (λ next. IsSign next → IsAsked self.new.stage) }
        ensures read_again { IfOk result (λ next. IsReadAgain self.old.team next) }
    {
        let found = read_message(alloc, message)?;
        let reaction = self.react(alloc, state, &found)?;
        self.stage = reaction.stage;
        reaction.answer
    }

    /// Takes the signature over the text that was to be signed, and answers the proof to send.
    ///
    /// It is called where the last `take` that didn't lack memory answered `Next::Sign`, and no signature was handed in since.
    pub fn signed(&mut self, alloc: Global, signature: &[u8]) -> Result<Bytes, Memory>
        requires { IsAsked self.old.stage }
        ensures signs { Signs signature.now self.old self.new result }
        ensures read_again { IfOk result (λ bytes. (found : Option Message) → Reads IsMessage message_text bytes found
            → found ≡ Some (record { team = self.old.team; content = Proves signature.now })) }
    {
        let proof = proof_text(alloc, &self.team, signature)?;
        self.stage = proved(&self.stage);
        Ok(proof)
    }

    /// How far this end is.
    pub fn state(&self) -> GreetState
        ensures { result ≡ shown self.now.stage }
    {
        self.stage.shown()
    }
}

// How far an end is once it has proved itself.
fn proved(stage: &Stage) -> Stage
    ensures { result ≡ proved stage.now }
{
    match stage {
        Stage::Asked(claim) => Stage::Proved(*claim),
        _ => *stage,
    }
}
