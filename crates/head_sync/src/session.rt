//! One end of an exchange: what it takes, and what it answers.
ghost use Rattle.std.specs.Prelude.{◌≡◌, ◌+◌, ◌-◌, ◌^◌, Bool, IfOk, OnErr, OnOk, Some, min};
ghost use Rattle.head_sync.specs.Bodies.{content_of, lent};
ghost use Rattle.head_sync.specs.Messages.{ask, give, hello};
ghost use Rattle.head_sync.specs.Sessions.{Answers, Makes, awaits, greeting_of, started};
ghost use Rattle.head_sync.specs.Steps.{GivesPart};

use crate::answering::{asking, closing, giving, lacking};
use crate::ends::Ends;
use crate::fault::SyncFault;
use crate::message::{Body, Message};
use crate::offering::offer_texts;
use crate::reading::read_message;
use crate::writing::hello_text;
use link_graph::LinkKeeper;
use std::alloc::Global;
use std::marker::Model;
use tg_outside::{StepLedger, Steps};
use tg_text::{Bytes, Items, LinkName, Memory};

/// One end of an exchange with another end of the same team.
#[derive(Debug, Drop)]
pub struct Session {
    alloc: Global,
    greeted: bool,
    asked: bool,
    awaits_links: bool,
    ends: Ends,
    refused: u32,
}

impl Model for Session {
    ghost use Rattle.head_sync.specs.Sessions.{Progress};

    ghost Value = { Progress };

    ghost view = { λ it. record { greeted = it.greeted; asked = it.asked; awaits_links = it.awaits_links; ends = it.ends; refused = it.refused } };
}

impl Session {
    /// A session at its start, and the Hello to send.
    pub fn start<H: LinkKeeper>(alloc: Global, keeper: &H) -> Result<(Session, Bytes), Memory>
        ensures { IfOk result (λ r. (r.0 ≡ started) × (r.1 ≡ greeting_of (H.held keeper.now))) }
    {
        let hello = hello_text(alloc, &keeper.team(), keeper.heads())?;
        let session = Session {
            alloc,
            greeted: false,
            asked: false,
            awaits_links: false,
            ends: Ends {
                sent: None,
                heard: None,
            },
            refused: 0,
        };
        Ok((session, hello))
    }

    /// Takes a message, and answers the messages to send.
    ///
    /// After a fault the session is as before, and so is what the keeper holds, but that it may hold some of a message's links where
    /// memory was short. That message may be taken again.
    pub fn take<H: LinkKeeper, L: StepLedger>(
        &mut self,
        keeper: &mut H,
        message: &[u8],
        steps: &mut Steps<L>,
    ) -> Result<Items<Bytes>, SyncFault>
        ensures { Answers self.old (H.held keeper.old) message.now self.new (H.held keeper.new) result }
    {
        let message = read_message(self.alloc, message)?;
        if message.team != keeper.team() {
            return Err(SyncFault::OtherTeam);
        }
        if !self.awaits(&message.body) {
            return Err(SyncFault::OutOfTurn);
        }
        let sent = self.take_body(keeper, message.body, steps)?;
        Ok(sent)
    }

    /// The heads of the Done that was sent, and of the one that was heard.
    pub fn ends(&self) -> &Ends
        ensures { result.now ≡ self.now.ends }
    {
        &self.ends
    }

    /// How many links that were given to it the keeper refused. The number stays at the greatest.
    pub fn refused(&self) -> u32
        ensures { result ≡ self.now.refused }
    {
        self.refused
    }

    // Whether what a message says is in turn.
    fn awaits(&self, body: &Body) -> bool
        ensures { result ≡ awaits self.now (content_of body.now) }
    {
        match body {
            Body::Hello { .. } => !self.greeted,
            Body::Ask { .. } => self.greeted && !self.asked,
            Body::Give { .. } => self.awaits_links,
            Body::Done { .. } => self.greeted && self.ends.heard.is_none(),
        }
    }

    // What is made of what an awaited message says.
    fn take_body<H: LinkKeeper, L: StepLedger>(
        &mut self,
        keeper: &mut H,
        body: Body,
        steps: &mut Steps<L>,
    ) -> Result<Items<Bytes>, Memory>
        ensures made { IfOk result (λ sent. Makes self.old (H.held keeper.old) (content_of body.entry) self.new (H.held keeper.new) sent) }
        ensures stays { OnErr result (self.new ≡ self.old) }
        ensures part { OnErr result (GivesPart (H.held keeper.old) (content_of body.entry) (H.held keeper.new)) }
    {
        match body {
            Body::Hello { heads } => self.take_hello(keeper, heads.as_slice()),
            Body::Ask { names, marks } => self.take_ask(keeper, names.as_slice(), marks.as_slice()),
            Body::Give { more, texts } => self.take_give(keeper, more, texts.as_slice(), steps),
            Body::Done { heads } => {
                self.ends.heard = Some(heads);
                Ok(Items::new(self.alloc))
            }
        }
    }

    // An end that lacks nothing says that it is done, and another asks.
    fn take_hello<H: LinkKeeper>(
        &mut self,
        keeper: &H,
        heads: &[LinkName],
    ) -> Result<Items<Bytes>, Memory>
        ensures made { IfOk result (λ sent. Makes self.old (H.held keeper.now) (hello heads.now) self.new (H.held keeper.now) sent) }
        ensures stays { OnErr result (self.new ≡ self.old) }
    {
        let names = lacking(self.alloc, keeper, heads)?;
        if names.is_empty() {
            let (sent, heads) = closing(self.alloc, keeper)?;
            self.ends.sent = Some(heads);
            self.greeted = true;
            return Ok(sent);
        }
        let sent = asking(self.alloc, keeper, names.as_slice())?;
        self.greeted = true;
        self.awaits_links = true;
        Ok(sent)
    }

    // What is asked for is given.
    fn take_ask<H: LinkKeeper>(
        &mut self,
        keeper: &H,
        names: &[LinkName],
        marks: &[LinkName],
    ) -> Result<Items<Bytes>, Memory>
        ensures made { IfOk result (λ sent. Makes self.old (H.held keeper.now) (ask names.now marks.now) self.new (H.held keeper.now) sent) }
        ensures stays { OnErr result (self.new ≡ self.old) }
    {
        let positions = keeper.below(self.alloc, names, marks)?;
        let sent = giving(self.alloc, keeper, positions.as_slice())?;
        self.asked = true;
        Ok(sent)
    }

    // Each text is offered, and after the last ones the end is done.
    fn take_give<H: LinkKeeper, L: StepLedger>(
        &mut self,
        keeper: &mut H,
        more: bool,
        texts: &[&[u8]],
        steps: &mut Steps<L>,
    ) -> Result<Items<Bytes>, Memory>
        ensures made { IfOk result (λ sent. Makes self.old (H.held keeper.old) (give more (lent texts.now)) self.new (H.held keeper.new) sent) }
        ensures stays { OnErr result (self.new ≡ self.old) }
        ensures part { OnErr result (GivesPart (H.held keeper.old) (give more (lent texts.now)) (H.held keeper.new)) }
    {
        let refused = offer_texts(self.alloc, keeper, texts, steps)?;
        if more {
            self.count_refused(refused);
            return Ok(Items::new(self.alloc));
        }
        let (sent, heads) = closing(self.alloc, keeper)?;
        self.count_refused(refused);
        self.awaits_links = false;
        self.ends.sent = Some(heads);
        Ok(sent)
    }

    fn count_refused(&mut self, refused: u32)
        ensures { self.new ≡ record self.old { refused = min (self.old.refused + refused) (2 ^ 32 - 1) } }
    {
        self.refused = self.refused.saturating_add(refused);
    }
}
