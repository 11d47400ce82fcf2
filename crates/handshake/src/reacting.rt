//! What an end answers to each kind of message, and how far it is then.
ghost use Rattle.std.specs.Prelude.{◌≡◌, IfOk};
ghost use Rattle.handshake.specs.Greetings.{asking, checking, is_listed, on_claim, on_content, on_proof, on_refusal, on_welcome, reaction, refusing};

use crate::fault::GreetFault;
use crate::greeting::Greeting;
use crate::message::{Claim, Content, Message};
use crate::stage::{Next, Reaction, Stage};
use crate::writing::{signed_text, welcome_text};
use acts::device_of;
use lms_tree::verify;
use std::alloc::Global;
use team_state::TeamState;
use tg_text::Memory;

impl Greeting {
    // What this end answers to a message, or to bytes that are none.
    pub(crate) fn react(
        &self,
        alloc: Global,
        state: &TeamState,
        found: &Option<Message>,
    ) -> Result<Reaction, Memory>
        ensures { IfOk result (λ r. r ≡ reaction state.now self.now found.now) }
    {
        match found {
            Some(message) => {
                if message.team == self.team {
                    self.on_content(alloc, state, &message.content)
                } else {
                    Ok(refusing(GreetFault::OtherTeam))
                }
            }
            None => Ok(refusing(GreetFault::BadMessage)),
        }
    }

    fn on_content(
        &self,
        alloc: Global,
        state: &TeamState,
        content: &Content,
    ) -> Result<Reaction, Memory>
        ensures { IfOk result (λ r. r ≡ on_content state.now self.now content.now) }
    {
        match content {
            Content::Claims(claim) => self.on_claim(alloc, state, claim),
            Content::Proves(signature) => self.on_proof(alloc, state, signature.as_slice()),
            Content::Welcomes => Ok(on_welcome(&self.stage)),
            Content::Refuses(_) => Ok(on_refusal(&self.stage)),
        }
    }

    fn on_claim(&self, alloc: Global, state: &TeamState, claim: &Claim) -> Result<Reaction, Memory>
        ensures { IfOk result (λ r. r ≡ on_claim state.now self.now claim.now self.now.stage) }
    {
        match self.stage {
            Stage::Claimed => {
                if is_listed(state, claim) {
                    self.ask(alloc, claim)
                } else {
                    Ok(refusing(GreetFault::UnknownDevice))
                }
            }
            _ => Ok(refusing(GreetFault::OutOfTurn)),
        }
    }

    // Asks to sign for the device of a claim.
    fn ask(&self, alloc: Global, claim: &Claim) -> Result<Reaction, Memory>
        ensures { IfOk result (λ r. r ≡ asking self.now claim.now) }
    {
        let text = signed_text(
            alloc,
            &self.team,
            &claim.nonce,
            &device_of(&self.own.key),
            &device_of(&claim.key),
        )?;
        Ok(Reaction {
            answer: Ok(Next::Sign(text)),
            stage: Stage::Asked(*claim),
        })
    }

    fn on_proof(
        &self,
        alloc: Global,
        state: &TeamState,
        signature: &[u8],
    ) -> Result<Reaction, Memory>
        ensures { IfOk result (λ r. r ≡ on_proof state.now self.now signature.now self.now.stage) }
    {
        match &self.stage {
            Stage::Proved(claim) => {
                if is_listed(state, claim) {
                    self.check(alloc, claim, signature)
                } else {
                    Ok(refusing(GreetFault::UnknownDevice))
                }
            }
            _ => Ok(refusing(GreetFault::OutOfTurn)),
        }
    }

    // Accepts the device of a claim, where the signature is its own over this end's nonce.
    fn check(&self, alloc: Global, claim: &Claim, signature: &[u8]) -> Result<Reaction, Memory>
        ensures { IfOk result (λ r. r ≡ checking self.now claim.now signature.now) }
    {
        let peer = device_of(&claim.key);
        let text = signed_text(
            alloc,
            &self.team,
            &self.own.nonce,
            &peer,
            &device_of(&self.own.key),
        )?;
        if verify(claim.key.as_slice(), text.as_slice(), signature) {
            let welcome = welcome_text(alloc, &self.team)?;
            Ok(Reaction {
                answer: Ok(Next::Send(welcome)),
                stage: Stage::Accepted(peer),
            })
        } else {
            Ok(refusing(GreetFault::BadProof))
        }
    }
}

fn on_welcome(stage: &Stage) -> Reaction
    ensures { result ≡ on_welcome stage.now }
{
    match stage {
        Stage::Accepted(device) => Reaction {
            answer: Ok(Next::Over),
            stage: Stage::Ended(*device),
        },
        _ => refusing(GreetFault::OutOfTurn),
    }
}

fn on_refusal(stage: &Stage) -> Reaction
    ensures { result ≡ on_refusal stage.now }
{
    match stage {
        Stage::Ended(_) | Stage::Refused => refusing(GreetFault::OutOfTurn),
        _ => Reaction {
            answer: Ok(Next::Over),
            stage: Stage::Refused,
        },
    }
}

// The message is refused, and the greeting with it.
fn refusing(fault: GreetFault) -> Reaction
    ensures { result ≡ refusing fault }
{
    Reaction {
        answer: Err(fault),
        stage: Stage::Refused,
    }
}

// Whether the device of a claim is listed for its user.
fn is_listed(state: &TeamState, claim: &Claim) -> bool
    ensures { result ≡ is_listed state.now claim.now }
{
    state.lists(&claim.user, &device_of(&claim.key))
}
