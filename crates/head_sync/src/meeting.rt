//! Two ends that see each other meet, until none has a message to take.
ghost use Rattle.std.specs.Prelude.{◌≡◌, ◌<◌, ◌-◌, ◌^◌, ◌∷◌, ◌++◌, [], ℕ, List, not, ◌==◌, IfOk, OnOk, length};
ghost use Rattle.head_sync.specs.Meetings.{Hears, IsMet};
ghost use Rattle.head_sync.specs.Waiting.{IsLighter, IsPassedOn, TakesTurn};

use crate::fault::SyncFault;
use crate::session::Session;
use link_graph::LinkKeeper;
use sha2::{Digest, Sha256};
use std::alloc::Global;
use std::collections::VecDeque;
use tg_outside::{StepLedger, Steps};
use tg_text::{Bytes, Items, Memory};

/// What came of a meeting.
#[derive(Clone, Copy, Debug, PartialEq, Eq)]
pub struct Met {
    /// How many messages were taken.
    pub messages: u64,
    /// The SHA-256 of their bytes, in the order in which they were taken.
    pub digest: [u8; 32],
    /// How many links the first end refused.
    pub refused_by_first: u32,
    /// How many links the second end refused.
    pub refused_by_second: u32,
}

// An end, and the messages that wait for it, the oldest first.
#[derive(Drop)]
struct Waiting {
    session: Session,
    inbox: VecDeque<Bytes>,
}

// The messages that were taken.
#[derive(Drop)]
struct Passed {
    count: u64,
    hasher: Sha256,
}

/// Lets two ends of one team meet: in turns each takes the oldest message that waits for it, until none waits. An end for which none
/// waits is passed over.
///
/// Where memory is short, the keepers may hold some of each other's links.
pub fn meet<A: LinkKeeper, B: LinkKeeper, L: StepLedger>(
    alloc: Global,
    one: &mut A,
    two: &mut B,
    steps: &mut Steps<L>,
) -> Result<Met, Memory>
    ensures { IfOk result (λ met. IsMet (A.held one.old) (B.held two.old) (A.held one.new) (B.held two.new) met) }
{
    let (first_session, first_hello) = Session::start(alloc, one)?;
    let (second_session, second_hello) = Session::start(alloc, two)?;
    let mut first = Waiting::new(alloc, first_session, second_hello)?;
    let mut second = Waiting::new(alloc, second_session, first_hello)?;
    let mut passed = Passed {
        count: 0,
        hasher: Sha256::new(),
    };
    while first.has_message() || second.has_message() {
        take_turn(
            alloc,
            &mut first,
            one,
            &mut second.inbox,
            &mut passed,
            steps,
        )?;
        take_turn(
            alloc,
            &mut second,
            two,
            &mut first.inbox,
            &mut passed,
            steps,
        )?;
    }
    Ok(Met {
        messages: passed.count,
        digest: passed.hasher.finalize(),
        refused_by_first: first.session.refused(),
        refused_by_second: second.session.refused(),
    })
}

impl Waiting {
    // The end of a session for which one message waits.
    fn new(alloc: Global, session: Session, message: Bytes) -> Result<Waiting, Memory>
        ensures session { IfOk result (λ it. it.session ≡ session) }
        ensures inbox { IfOk result (λ it. it.inbox.items ≡ message ∷ []) }
    {
        let mut inbox = VecDeque::new(alloc);
        inbox.push_back(message)?;
        Ok(Waiting { session, inbox })
    }

    fn has_message(&self) -> bool
        ensures { result ≡ not (length self.now.inbox.items == 0) }
    {
        !self.inbox.is_empty()
    }
}

// An end takes its oldest message, if there is one, and what it sends waits for the other.
fn take_turn<H: LinkKeeper, L: StepLedger>(
    alloc: Global,
    end: &mut Waiting,
    keeper: &mut H,
    other: &mut VecDeque<Bytes>,
    passed: &mut Passed,
    steps: &mut Steps<L>,
) -> Result<(), Memory>
    requires count { passed.old.count < 2 ^ 64 - 1 }
    ensures turn { OnOk result ((now : List (List ℕ)) × IsPassedOn passed.old passed.new now
        × TakesTurn end.old.session (H.held keeper.old) end.old.inbox.items end.new.session (H.held keeper.new) end.new.inbox.items other.old.items other.new.items now
        × IsLighter end.old.session end.old.inbox.items end.new.session end.new.inbox.items other.old.items other.new.items now) }
{
    // A law: it does nothing at run time.
    keeper.is_held();
    let Some(message) = end.inbox.pop_front() else {
        return Ok(());
    };
    passed.add(message.as_slice());
    let sent = hear(alloc, &mut end.session, keeper, message.as_slice(), steps)?;
    wait_all(other, sent)?;
    Ok(())
}

impl Passed {
    // One more message was taken.
    fn add(&mut self, message: &[u8])
        requires { self.old.count < 2 ^ 64 - 1 }
        ensures { IsPassedOn self.old self.new (message.now ∷ []) }
    {
        self.hasher.update(message);
        self.count += 1;
    }
}

// The messages wait after those that do already.
fn wait_all(inbox: &mut VecDeque<Bytes>, messages: Items<Bytes>) -> Result<(), Memory>
    ensures { OnOk result (inbox.new.items ≡ inbox.old.items ++ messages) }
{
    for message in messages.into_vec() {
        inbox.push_back(message)?;
    }
    Ok(())
}

// Takes a message, or leaves all as it is where the message is refused.
fn hear<H: LinkKeeper, L: StepLedger>(
    alloc: Global,
    session: &mut Session,
    keeper: &mut H,
    message: &[u8],
    steps: &mut Steps<L>,
) -> Result<Items<Bytes>, Memory>
    ensures { IfOk result (λ sent. Hears session.old (H.held keeper.old) message.now session.new (H.held keeper.new) sent) }
{
    match session.take(keeper, message, steps) {
        Ok(sent) => Ok(sent),
        Err(SyncFault::Memory) => Err(Memory),
        Err(SyncFault::BadMessage) => Ok(Items::new(alloc)),
        Err(SyncFault::OtherTeam) => Ok(Items::new(alloc)),
        Err(SyncFault::OutOfTurn) => Ok(Items::new(alloc)),
    }
}
