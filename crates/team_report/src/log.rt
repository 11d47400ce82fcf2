//! The text of log.
ghost use Rattle.std.specs.Prelude.{◌≡◌, ◌++◌, IfOk, OnOk, flat_map, map};
ghost use Rattle.link_graph.specs.Held.{arrived_of};
ghost use Rattle.link_graph.specs.Positions.{HasEntries, linked};
ghost use Rattle.team_model.specs.Judging.{order_of, team_rules, verdict};
ghost use Rattle.team_report.specs.LogText.{judged_line, log_line, log_text, waiting_links};

use crate::act_words::act_word;
use crate::verdict_words::write_verdict;
use crate::waiting::find_waiting;
use replica::{Graph, Replica, Verdict};
use std::alloc::Global;
use team_model::Link;
use tg_text::{Bytes, LinkName, Memory, write_hex};

/// The text of log: a line for each held link, with its author, the word of its act and what became of it. Those that are
/// connected stand in the order of the team, and after them those that wait, in ascending order of names.
pub fn log_text(alloc: Global, replica: &Replica) -> Result<Bytes, Memory>
    ensures { IfOk result (λ out. out ≡ log_text replica.now.links) }
{
    let graph = replica.graph();
    let mut out = Bytes::new(alloc);
    write_connected(&mut out, graph, replica.view().verdicts.as_slice())?;
    write_waiting(alloc, &mut out, graph)?;
    Ok(out)
}

fn write_connected(out: &mut Bytes, graph: &Graph, verdicts: &[Verdict]) -> Result<(), Memory>
    requires { verdicts.now ≡ map (verdict team_rules graph.now.links) (arrived_of graph.now.links) }
    ensures { OnOk result (out.new ≡ out.old ++ flat_map (log_line graph.now.links) (order_of graph.now.links)) }
{
    for position in graph.order() {
        write_line(out, graph.link_at(*position), &verdicts[*position as usize])?;
    }
    Ok(())
}

fn write_waiting(alloc: Global, out: &mut Bytes, graph: &Graph) -> Result<(), Memory>
    ensures { OnOk result (out.new ≡ out.old ++ flat_map (log_line graph.now.links) (waiting_links graph.now.links)) }
{
    let entries = find_waiting(alloc, graph)?;
    write_entries(out, graph.links(), &entries)
}

// The lines of links that wait, by their places.
fn write_entries(
    out: &mut Bytes,
    links: &[Link],
    entries: &[(LinkName, usize)],
) -> Result<(), Memory>
    requires { HasEntries links.now entries.now }
    ensures { OnOk result (out.new ≡ out.old ++ flat_map (λ x. judged_line x Verdict.Waiting) (linked links.now entries.now)) }
{
    for entry in entries {
        write_line(out, &links[entry.1], &Verdict::Waiting)?;
    }
    Ok(())
}

// The line of a link of which this became.
fn write_line(out: &mut Bytes, link: &Link, verdict: &Verdict) -> Result<(), Memory>
    ensures { OnOk result (out.new ≡ out.old ++ judged_line link.now verdict.now) }
{
    write_hex(out, link.name.as_slice())?;
    out.append(b" ")?;
    out.append(link.entry.user.as_slice())?;
    out.append(b" ")?;
    out.append(act_word(&link.entry.act).as_bytes())?;
    out.append(b" ")?;
    write_verdict(out, verdict)?;
    out.append(b"\n")
}
