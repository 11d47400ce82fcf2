//! Cases about the team of a link's past.
use replica::{Replica, TeamState};
use std::alloc::Global;
use team_files::{FileFault, read_graph};
use team_samples::SampleFault;
use tg_text::{LinkName, Memory, read_hex32};

/// Whether a row `NAME TITLE = USER ..` holds of the base, a team file.
pub fn past_holds(alloc: Global, base: &[u8], row: &str) -> Result<bool, SampleFault> {
    let (name, rest) = row.split_once(' ').ok_or(SampleFault::BadWord)?;
    let (title, users) = rest.split_once(" = ").ok_or(SampleFault::BadWord)?;
    let name = read_hex32(name.as_bytes()).ok_or(SampleFault::BadWord)?;
    let graph = match read_graph(alloc, base) {
        Ok(graph) => graph,
        Err(FileFault::BadFile) => return Ok(false),
        Err(FileFault::Memory) => return Err(SampleFault::Memory),
    };
    let replica = Replica::with_graph(alloc, graph)?;
    match team_of(alloc, &replica, &LinkName(name))? {
        Some(state) => Ok(has_title(&state, title) && has_members(&state, users)),
        None => Ok(false),
    }
}

// The team of the link of this name with its ancestors, where it is connected.
fn team_of(alloc: Global, replica: &Replica, name: &LinkName) -> Result<Option<TeamState>, Memory> {
    let graph = replica.graph();
    // A law: it does nothing at run time.
    graph.is_held();
    match graph.position(name) {
        Some(_) => Ok(Some(replica.team_of(alloc, &[*name])?)),
        None => Ok(None),
    }
}

fn has_title(state: &TeamState, title: &str) -> bool {
    match state.title() {
        Some(held) => held.as_slice() == title.as_bytes(),
        None => false,
    }
}

// Whether the members are these, a space apart, and no others.
fn has_members(state: &TeamState, users: &str) -> bool {
    let mut count: usize = 0;
    for user in users.split(' ') {
        match state.members().get(count) {
            Some(member) if member.user.as_slice() == user.as_bytes() => {}
            _ => return false,
        }
        count = count.saturating_add(1);
    }
    state.members().len() == count
}
