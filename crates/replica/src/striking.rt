//! Which links strike which, by position. It depends on neither the later links nor a part of the set, so it is found once for each two.
ghost use Rattle.std.specs.Prelude.{◌≡◌, ◌<◌, ◌+◌, length, OnOk, false, true};
ghost use Rattle.link_graph.specs.Held.{arrived_of};
ghost use Rattle.replica.specs.Judged.{is_lawful_at};
ghost use Rattle.replica.specs.Striking.{AreNoted, AreStrikes, AreStrikesBefore, AreStriking, AreStrikingBefore, link_strikes, NotesStrike, strikes_any};

use link_graph::{Graph, positions_stand_as_links};
use strikes::{is_striking, strikes};
use team_model::Reason;
use tg_text::Memory;

/// Whether the link of a position is judged, and lawful.
pub(crate) fn is_lawful(reasons: &[Option<Reason>], position: u32) -> bool
    ensures { result ≡ is_lawful_at reasons.now position }
{
    matches!(reasons.get(position as usize), Some(None))
}

// Whether the link of a position strikes.
fn strikes_any(graph: &Graph, position: u32) -> bool
    requires { position < length (arrived_of graph.now.links) }
    ensures { result ≡ strikes_any graph.now.links position }
{
    is_striking(&graph.link_at(position).entry.act)
}

/// Whether the link of one position strikes that of another, where both are lawful.
pub(crate) fn strikes_at(graph: &Graph, striker: u32, other: u32) -> bool
    requires striker { striker < length (arrived_of graph.now.links) }
    requires other { other < length (arrived_of graph.now.links) }
    ensures { result ≡ link_strikes graph.now.links striker other }
{
    // Laws: they do nothing at run time.
    graph.is_held();
    positions_stand_as_links();
    let entry = &graph.link_at(striker).entry;
    is_striking(&entry.act)
        && strikes(
            entry,
            &graph.link_at(other).entry,
            graph.ancestry().concurrent(striker, other),
        )
}

// Notes whether the link of one position strikes that of another.
fn note_strike(
    graph: &Graph,
    striker: u32,
    other: u32,
    pairs: &mut Vec<(u32, u32)>,
) -> Result<(), Memory>
    requires striker { striker < length (arrived_of graph.now.links) }
    requires other { other < length (arrived_of graph.now.links) }
    ensures { OnOk result (NotesStrike graph.now.links striker other pairs.old.items pairs.new.items) }
{
    if strikes_at(graph, striker, other) {
        pairs.push((striker, other))?;
    }
    Ok(())
}

// Notes the strikes between the links of an earlier position and of a later one, which is lawful.
fn note_both(
    graph: &Graph,
    reasons: &[Option<Reason>],
    earlier: u32,
    later: u32,
    pairs: &mut Vec<(u32, u32)>,
) -> Result<(), Memory>
    requires given { later < length (arrived_of graph.now.links) }
    requires before { earlier < later }
    requires lawful { is_lawful_at reasons.now later ≡ true }
    requires so_far { AreNoted graph.now.links reasons.now later earlier pairs.old.items }
    ensures { OnOk result (AreNoted graph.now.links reasons.now later (earlier + 1) pairs.new.items) }
{
    if !is_lawful(reasons, earlier) {
        return Ok(());
    }
    note_strike(graph, earlier, later, pairs)?;
    note_strike(graph, later, earlier, pairs)?;
    Ok(())
}

// Notes the strikes between the link of a position, which is lawful, and those before it.
fn note_lawful(
    graph: &Graph,
    reasons: &[Option<Reason>],
    position: u32,
    pairs: &mut Vec<(u32, u32)>,
) -> Result<(), Memory>
    requires given { position < length (arrived_of graph.now.links) }
    requires last { length reasons.now ≡ position + 1 }
    requires lawful { is_lawful_at reasons.now position ≡ true }
    requires before { AreStrikesBefore graph.now.links reasons.now position pairs.old.items }
    ensures { OnOk result (AreStrikes graph.now.links reasons.now pairs.new.items) }
{
    for earlier in 0..position {
        note_both(graph, reasons, earlier, position, pairs)?;
    }
    Ok(())
}

// Notes which of the links of these positions strike that of a later one, which is lawful and strikes none itself.
fn note_struck(
    graph: &Graph,
    reasons: &[Option<Reason>],
    strikers: &[u32],
    position: u32,
    pairs: &mut Vec<(u32, u32)>,
) -> Result<(), Memory>
    requires given { position < length (arrived_of graph.now.links) }
    requires last { length reasons.now ≡ position + 1 }
    requires lawful { is_lawful_at reasons.now position ≡ true }
    requires strikes_none { strikes_any graph.now.links position ≡ false }
    requires strikers { AreStrikingBefore graph.now.links reasons.now position strikers.now }
    requires before { AreStrikesBefore graph.now.links reasons.now position pairs.old.items }
    ensures { OnOk result (AreStrikes graph.now.links reasons.now pairs.new.items) }
{
    for &striker in strikers {
        note_strike(graph, striker, position, pairs)?;
    }
    Ok(())
}

/// Notes which links of earlier positions the link judged last strikes, and which strike it. Those between the earlier ones are noted.
///
/// Only where it strikes itself is each earlier link asked; else the strikers among them alone, whose positions are given.
pub(crate) fn note_strikes(
    graph: &Graph,
    reasons: &[Option<Reason>],
    strikers: &[u32],
    position: u32,
    pairs: &mut Vec<(u32, u32)>,
) -> Result<(), Memory>
    requires given { position < length (arrived_of graph.now.links) }
    requires last { length reasons.now ≡ position + 1 }
    requires strikers { AreStrikingBefore graph.now.links reasons.now position strikers.now }
    requires before { AreStrikesBefore graph.now.links reasons.now position pairs.old.items }
    ensures { OnOk result (AreStrikes graph.now.links reasons.now pairs.new.items) }
{
    if !is_lawful(reasons, position) {
        return Ok(());
    }
    if strikes_any(graph, position) {
        note_lawful(graph, reasons, position, pairs)?;
    } else {
        note_struck(graph, reasons, strikers, position, pairs)?;
    }
    Ok(())
}

/// Notes the position of the link judged last, if it is lawful and strikes. Earlier ones are noted.
pub(crate) fn note_striker(
    graph: &Graph,
    reasons: &[Option<Reason>],
    position: u32,
    strikers: &mut Vec<u32>,
) -> Result<(), Memory>
    requires given { position < length (arrived_of graph.now.links) }
    requires last { length reasons.now ≡ position + 1 }
    requires before { AreStrikingBefore graph.now.links reasons.now position strikers.old.items }
    ensures { OnOk result (AreStriking graph.now.links reasons.now strikers.new.items) }
{
    if is_lawful(reasons, position) && strikes_any(graph, position) {
        strikers.push(position)?;
    }
    Ok(())
}
