//! Devices that greet, and a team that lists them.
use acts::device_of;
use handshake::{GreetState, Greeting, Next};
use lms_tree::Tree;
use std::alloc::Global;
use team_state::{Device, TeamState};
use tg_text::{Bytes, DeviceId, LinkName, Memory, UserName};

// A member's device, with its tree.
#[derive(Drop)]
pub(crate) struct Member {
    pub(crate) user: UserName,
    pub(crate) tree: Tree,
}

impl Member {
    pub(crate) fn make(alloc: Global, name: &[u8], id: u8) -> Option<Member> {
        let user = UserName::read(name)?;
        let tree = Tree::make(alloc, 5, 3, &[id; 16], &[id; 32]).ok()?;
        Some(Member { user, tree })
    }

    pub(crate) fn device(&self) -> DeviceId {
        device_of(&self.tree.public())
    }

    // An end that claims with a nonce, and its claim.
    pub(crate) fn start(&self, alloc: Global, nonce: u8) -> Option<(Greeting, Bytes)> {
        Greeting::start(alloc, team(), self.user, self.tree.public(), [nonce; 32]).ok()
    }

    // What it signs by a leaf.
    fn sign(&self, alloc: Global, leaf: u32, text: &[u8]) -> Option<Bytes> {
        if leaf < self.tree.leaves() {
            self.tree.sign(alloc, leaf, text).ok()
        } else {
            None
        }
    }
}

// Ann's device and bo's, and the team that lists both.
#[derive(Drop)]
pub(crate) struct Crew {
    pub(crate) ann: Member,
    pub(crate) bo: Member,
    pub(crate) state: TeamState,
}

impl Crew {
    pub(crate) fn make(alloc: Global) -> Option<Crew> {
        let ann = Member::make(alloc, b"ann", 1)?;
        let bo = Member::make(alloc, b"bo", 2)?;
        let state = list_both(alloc, &ann, &bo).ok()?;
        Some(Crew { ann, bo, state })
    }
}

// One end of ann's and one of bo's, and what each claims.
#[derive(Drop)]
pub(crate) struct Ends {
    pub(crate) one: Greeting,
    pub(crate) two: Greeting,
    pub(crate) first: Bytes,
    pub(crate) second: Bytes,
}

impl Ends {
    // Ann claims with a nonce, and bo with that of bytes 4.
    pub(crate) fn start(alloc: Global, crew: &Crew, nonce: u8) -> Option<Ends> {
        let (one, first) = crew.ann.start(alloc, nonce)?;
        let (two, second) = crew.bo.start(alloc, 4)?;
        Some(Ends {
            one,
            two,
            first,
            second,
        })
    }

    // Ann's end takes bo's claim, and proves itself by a leaf.
    pub(crate) fn prove_ann(&mut self, alloc: Global, crew: &Crew, leaf: u32) -> Option<Bytes> {
        let claim = self.second.as_slice();
        prove(alloc, &mut self.one, &crew.ann, leaf, &crew.state, claim)
    }

    // Bo's end takes ann's claim, and proves itself by a leaf.
    pub(crate) fn prove_bo(&mut self, alloc: Global, crew: &Crew, leaf: u32) -> Option<Bytes> {
        let claim = self.first.as_slice();
        prove(alloc, &mut self.two, &crew.bo, leaf, &crew.state, claim)
    }

    // Whether the ends are as far as this.
    pub(crate) fn are(&self, one: GreetState, two: GreetState) -> bool {
        self.one.state() == one && self.two.state() == two
    }
}

// The end takes a claim, and proves itself by a leaf of its member.
fn prove(
    alloc: Global,
    end: &mut Greeting,
    member: &Member,
    leaf: u32,
    state: &TeamState,
    claim: &[u8],
) -> Option<Bytes> {
    match end.take(alloc, state, claim) {
        Ok(Next::Sign(text)) => {
            let signature = member.sign(alloc, leaf, text.as_slice())?;
            end.signed(alloc, signature.as_slice()).ok()
        }
        _ => None,
    }
}

// What the end is to send after it took a message.
pub(crate) fn sent(
    alloc: Global,
    end: &mut Greeting,
    state: &TeamState,
    message: &[u8],
) -> Option<Bytes> {
    match end.take(alloc, state, message) {
        Ok(Next::Send(bytes)) => Some(bytes),
        _ => None,
    }
}

// Whether the end has nothing to do after it took a message.
pub(crate) fn is_over(
    alloc: Global,
    end: &mut Greeting,
    state: &TeamState,
    message: &[u8],
) -> bool {
    matches!(end.take(alloc, state, message), Ok(Next::Over))
}

pub(crate) fn team() -> LinkName {
    LinkName([7; 32])
}

// A team that lists both devices.
fn list_both(alloc: Global, ann: &Member, bo: &Member) -> Result<TeamState, Memory> {
    let mut state = TeamState::new(alloc)?;
    put(&mut state, ann)?;
    put(&mut state, bo)?;
    Ok(state)
}

fn put(state: &mut TeamState, member: &Member) -> Result<(), Memory> {
    state.put_device(Device {
        id: member.device(),
        seal: [1; 32],
        user: member.user,
        listed: true,
    })
}
