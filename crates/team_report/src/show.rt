ghost use Rattle.std.specs.Prelude.{◌≡◌, ◌-◌, ◌++◌, OnOk, IfOk, filter, length, option_copied};
ghost use Rattle.team_model.specs.Counting.{is_counting};
ghost use Rattle.team_model.specs.Judging.{order_of};
ghost use Rattle.team_model.specs.ShowText.{count_counting, show_text, state_lines};
ghost use Rattle.team_report.specs.Lines.{links_line, team_line, title_line};
ghost use Rattle.team_report.specs.Shown.{shown};

use crate::by_user::write_devices;
use crate::current_keys::write_current_keys;
use crate::debts::write_debts;
use crate::tables::{write_invitations, write_members, write_roles};
use replica::{Replica, TeamState, Verdict};
use std::alloc::Global;
use tg_text::{Bytes, LinkName, Memory, Title, write_decimal, write_hex};

// How many links are held, how many of them wait for a parent, and how many count.
#[derive(Clone, Copy, Debug)]
pub(crate) struct Counts {
    pub(crate) held: u32,
    pub(crate) waiting: u32,
    pub(crate) counting: usize,
}

/// The text of show: the team of a replica's links with its tables, and how many are held, wait and count.
pub fn show_text(alloc: Global, replica: &Replica) -> Result<Bytes, Memory>
    ensures { IfOk result (λ out. out ≡ show_text replica.now.team replica.now.links) }
{
    write_all(
        alloc,
        &replica.team(),
        &count_links(replica),
        replica.state(),
    )
}

fn count_links(replica: &Replica) -> Counts
    ensures held { result.held ≡ length replica.now.links }
    ensures waiting { result.waiting ≡ length replica.now.links - length (order_of replica.now.links) }
    ensures counting { result.counting ≡ count_counting replica.now.links }
{
    let graph = replica.graph();
    // A law: it does nothing at run time.
    graph.is_held();
    Counts {
        held: graph.held(),
        waiting: graph.held() - graph.connected(),
        counting: count_counting(replica.view().verdicts.as_slice()),
    }
}

fn count_counting(verdicts: &[Verdict]) -> usize
    ensures { result ≡ length (filter is_counting verdicts.now) }
{
    verdicts
        .iter()
        .filter(|verdict| is_counting(verdict))
        .count()
}

fn is_counting(verdict: &Verdict) -> bool
    ensures { result ≡ is_counting verdict.now }
{
    matches!(verdict, Verdict::Counts)
}

fn write_all(
    alloc: Global,
    team: &LinkName,
    counts: &Counts,
    state: &TeamState,
) -> Result<Bytes, Memory>
    ensures { IfOk result (λ out. out ≡ shown team.now counts.now state.now) }
{
    let mut out = Bytes::new(alloc);
    write_team(&mut out, team)?;
    write_title(&mut out, state.title())?;
    write_links(&mut out, counts)?;
    write_state(alloc, &mut out, state)?;
    out.append(b"end\n")?;
    Ok(out)
}

fn write_team(out: &mut Bytes, team: &LinkName) -> Result<(), Memory>
    ensures { OnOk result (out.new ≡ out.old ++ team_line team.now) }
{
    out.append(b"team ")?;
    write_hex(out, team.as_slice())?;
    out.append(b"\n")
}

fn write_title(out: &mut Bytes, title: Option<&Title>) -> Result<(), Memory>
    ensures { OnOk result (out.new ≡ out.old ++ title_line (option_copied title.entry)) }
{
    let Some(title) = title else {
        return Ok(());
    };
    out.append(b"title ")?;
    out.append(title.as_slice())?;
    out.append(b"\n")
}

fn write_links(out: &mut Bytes, counts: &Counts) -> Result<(), Memory>
    ensures { OnOk result (out.new ≡ out.old ++ links_line counts.now) }
{
    out.append(b"links ")?;
    write_decimal(out, u64::from(counts.held))?;
    out.append(b" waiting ")?;
    write_decimal(out, u64::from(counts.waiting))?;
    out.append(b" counting ")?;
    write_decimal(out, counts.counting as u64)?;
    out.append(b"\n")
}

fn write_state(alloc: Global, out: &mut Bytes, state: &TeamState) -> Result<(), Memory>
    ensures { OnOk result (out.new ≡ out.old ++ state_lines state.now) }
{
    write_members(out, state.members())?;
    write_devices(alloc, out, state.devices())?;
    write_roles(out, state.roles())?;
    write_invitations(alloc, out, state.invitations())?;
    write_current_keys(alloc, out, state)?;
    write_debts(alloc, out, state)
}
