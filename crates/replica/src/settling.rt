//! Which of some links that strike each other stand.
ghost use Rattle.std.specs.Prelude.{◌≡◌, ◌<◌, ◌||◌, if◌then◌else◌, [], ◌∷◌, List, ℕ, All, IfOk, OnOk, false, filter, length, map, slice_get, slice_index_or, Some};
ghost use Rattle.team_sets.specs.Names.{has_name};
ghost use Rattle.team_model.specs.Judging.{decision_in, strikers, team_rules};
ghost use Rattle.team_model.specs.declared.terms.Link.{Link};
ghost use Rattle.link_graph.specs.Below.{AreMarked};
ghost use Rattle.link_graph.specs.Held.{arrived_of};
ghost use Rattle.link_graph.specs.Positions.{at_places};
ghost use Rattle.replica.specs.Settling.{AddsStriker, AllBrought, AreActsOf, AreLawful, by_position, decided_at, first_standing, HasFirsts, HasSizes, is_between, is_struck_at, IsPairWithin, IsRanked, IsSettled, NotesBringing, standing_names, stands_at, striker_by, striker_of};
ghost use Rattle.replica.specs.Striking.{IsJudged};

use crate::judged::Judged;
use crate::striking::strikes_at;
use link_graph::{Graph, mark_one};
use settlement::{Decision, Place, Striker, rank_is_by_seniority, settle_all};
use std::alloc::Global;
use strikes::{Seniority, brings_user, is_striking};
use tg_text::Memory;

/// What settlement decides of the strikers among some links: the strikers in the order of the team, and a decision for each. By position,
/// which stand, and which links one that stands strikes.
#[derive(Debug, Drop)]
pub(crate) struct Settled {
    pub(crate) acts: Vec<Striker>,
    pub(crate) decisions: Vec<Decision>,
    pub(crate) standing: Vec<bool>,
    pub(crate) struck: Vec<bool>,
}

// Notes the place of the link of a position for the user whom it brings in.
fn note_bringing(graph: &Graph, position: u32, seniority: &mut Seniority) -> Result<(), Memory>
    requires given { position < length (arrived_of graph.now.links) }
    ensures { OnOk result (NotesBringing graph.now.links position seniority.old seniority.new) }
{
    let link = graph.link_at(position);
    if let Some(user) = brings_user(&link.entry) {
        let _ = seniority.note(user, graph.height(position), link.name)?;
    }
    Ok(())
}

// How senior the users are whom the links of these positions bring in.
fn seniority_of(alloc: Global, graph: &Graph, positions: &[u32]) -> Result<Seniority, Memory>
    requires given { All (λ p. p < length (arrived_of graph.now.links)) positions.now }
    ensures { IfOk result (λ it. HasFirsts graph.now.links (at_places (arrived_of graph.now.links) positions.now) it) }
{
    let mut seniority = Seniority::new(alloc);
    for place in (0..positions.len()).rev() {
        note_bringing(graph, positions[place], &mut seniority)?;
    }
    Ok(seniority)
}

// The link of a position as a striker. A user is told by the position of the link that brought him in first.
fn striker_at(graph: &Graph, seniority: &Seniority, position: u32) -> Striker
    requires given { position < length (arrived_of graph.now.links) }
    requires ranked { IsRanked graph.now.links seniority.now position }
    ensures { (x : Link) → slice_get (arrived_of graph.now.links) position ≡ Some x → result ≡ striker_by graph.now.links seniority.now x }
{
    // A law: it does nothing at run time.
    graph.is_held();
    let link = graph.link_at(position);
    let (height, name) = seniority.rank(&link.entry.user).unwrap();
    Striker {
        id: position,
        by: graph.position(&name).unwrap(),
        since: Place { height, name },
        place: Place {
            height: graph.height(position),
            name: link.name,
        },
    }
}

// Adds the link of a position to the strikers, if it strikes.
fn add_striker(
    graph: &Graph,
    seniority: &Seniority,
    position: u32,
    acts: &mut Vec<Striker>,
) -> Result<(), Memory>
    requires given { position < length (arrived_of graph.now.links) }
    requires ranked { IsRanked graph.now.links seniority.now position }
    ensures { OnOk result (AddsStriker graph.now.links seniority.now position acts.old.items acts.new.items) }
{
    if !is_striking(&graph.link_at(position).entry.act) {
        return Ok(());
    }
    acts.push(striker_at(graph, seniority, position))?;
    Ok(())
}

// The strikers among the links of these positions.
fn strikers_of(alloc: Global, graph: &Graph, positions: &[u32]) -> Result<Vec<Striker>, Memory>
    requires given { All (λ p. p < length (arrived_of graph.now.links)) positions.now }
    requires brought { AllBrought graph.now.links (at_places (arrived_of graph.now.links) positions.now) }
    ensures { IfOk result (λ acts. acts.items ≡ map (striker_of graph.now.links (at_places (arrived_of graph.now.links) positions.now))
        (strikers graph.now.links (at_places (arrived_of graph.now.links) positions.now))) }
{
    let seniority = seniority_of(alloc, graph, positions)?;
    let mut acts = Vec::new(alloc);
    for &position in positions {
        add_striker(graph, &seniority, position, &mut acts)?;
    }
    Ok(acts)
}

// Whether both links of a pair are marked, and the second strikes too.
fn is_between(graph: &Graph, marked: &[bool], pair: &(u32, u32)) -> bool
    requires size { length marked.now ≡ length (arrived_of graph.now.links) }
    requires within { IsPairWithin (length (arrived_of graph.now.links)) pair.now }
    ensures { result ≡ is_between graph.now.links marked.now pair.now }
{
    marked[pair.0 as usize]
        && marked[pair.1 as usize]
        && is_striking(&graph.link_at(pair.1).entry.act)
}

// The strikes between marked strikers.
fn pairs_between(
    alloc: Global,
    graph: &Graph,
    marked: &[bool],
    strikes: &[(u32, u32)],
) -> Result<Vec<(u32, u32)>, Memory>
    requires size { length marked.now ≡ length (arrived_of graph.now.links) }
    requires within { All (IsPairWithin (length (arrived_of graph.now.links))) strikes.now }
    ensures { IfOk result (λ pairs. pairs.items ≡ filter (is_between graph.now.links marked.now) strikes.now) }
{
    let mut pairs = Vec::new(alloc);
    for pair in strikes {
        if is_between(graph, marked, pair) {
            pairs.push(*pair)?;
        }
    }
    Ok(pairs)
}

// What is decided of each of the strikers among the lawful links that are marked.
fn decide(
    alloc: Global,
    graph: &Graph,
    judged: &Judged,
    marked: &[bool],
    acts: &[Striker],
) -> Result<Vec<Decision>, Memory>
    requires judged { IsJudged graph.now.links judged.now }
    requires size { length marked.now ≡ length (arrived_of graph.now.links) }
    requires acts { (xs : List Link) × AreActsOf graph.now.links judged.now.reasons.items marked.now xs acts.now }
    ensures { IfOk result (λ decisions. (xs : List Link) → AreActsOf graph.now.links judged.now.reasons.items marked.now xs acts.now
        → decisions.items ≡ map (λ x. by_position graph.now.links (decision_in team_rules graph.now.links xs x)) (strikers graph.now.links xs)) }
{
    // Laws: they do nothing at run time.
    graph.is_held();
    rank_is_by_seniority();
    let pairs = pairs_between(alloc, graph, marked, &judged.strikes)?;
    let decisions = settle_all(alloc, acts, &pairs)?;
    Ok(decisions)
}

// Whether the act of this place is decided to stand.
fn stands_at(decisions: &[Decision], place: usize) -> bool
    ensures { result ≡ stands_at decisions.now place }
{
    matches!(decisions.get(place), Some(Decision::Stands))
}

// Marks an act, if it stands.
fn mark_act(graph: &Graph, act: &Striker, stands: bool, flags: &mut [bool])
    requires size { length flags.old ≡ length (arrived_of graph.now.links) }
    ensures size { length flags.new ≡ length flags.old }
    ensures marks { AreMarked graph.now.links (if stands then act.now.place.name ∷ [] else []) flags.old flags.new }
{
    if stands {
        mark_one(graph, &act.place.name, flags);
    }
}

// Marks the acts that are decided to stand.
fn mark_standing(graph: &Graph, acts: &[Striker], decisions: &[Decision], flags: &mut [bool])
    requires each { length decisions.now ≡ length acts.now }
    requires size { length flags.old ≡ length (arrived_of graph.now.links) }
    ensures size { length flags.new ≡ length flags.old }
    ensures marks { AreMarked graph.now.links (standing_names acts.now decisions.now) flags.old flags.new }
{
    for place in 0..acts.len() {
        let stands = stands_at(decisions, place);
        mark_act(graph, &acts[place], stands, flags);
    }
}

// Which positions are those of acts that are decided to stand.
fn standing_flags(
    alloc: Global,
    graph: &Graph,
    acts: &[Striker],
    decisions: &[Decision],
) -> Result<Vec<bool>, Memory>
    requires each { length decisions.now ≡ length acts.now }
    ensures size { IfOk result (λ flags. length flags.items ≡ length (arrived_of graph.now.links)) }
    ensures marks { IfOk result (λ flags. (i : ℕ) (x : Link) → slice_get (arrived_of graph.now.links) i ≡ Some x
        → slice_index_or flags.items i false ≡ has_name (standing_names acts.now decisions.now) x.name) }
{
    let mut flags = vec![in alloc; false; graph.connected() as usize]?;
    mark_standing(graph, acts, decisions, &mut flags);
    Ok(flags)
}

// Marks what a striker strikes that stands.
fn mark_struck(strikes: &[(u32, u32)], standing: &[bool], flags: &mut [bool])
    requires size { length standing.now ≡ length flags.old }
    requires within { All (IsPairWithin (length flags.old)) strikes.now }
    ensures size { length flags.new ≡ length flags.old }
    ensures marks { (i : ℕ) → slice_index_or flags.new i false ≡ (slice_index_or flags.old i false || is_struck_at strikes.now standing.now i) }
{
    for pair in strikes {
        if standing[pair.0 as usize] {
            flags[pair.1 as usize] = true;
        }
    }
}

// Which positions are struck by one that stands.
fn struck_flags(
    alloc: Global,
    strikes: &[(u32, u32)],
    standing: &[bool],
) -> Result<Vec<bool>, Memory>
    requires within { All (IsPairWithin (length standing.now)) strikes.now }
    ensures size { IfOk result (λ flags. length flags.items ≡ length standing.now) }
    ensures marks { IfOk result (λ flags. (i : ℕ) → slice_index_or flags.items i false ≡ is_struck_at strikes.now standing.now i) }
{
    let mut flags = vec![in alloc; false; standing.len()]?;
    mark_struck(strikes, standing, &mut flags);
    Ok(flags)
}

/// Settles the strikers among the lawful links that are marked. Their positions are given in the order of the team.
pub(crate) fn settle(
    alloc: Global,
    graph: &Graph,
    judged: &Judged,
    marked: &[bool],
    lawful: &[u32],
) -> Result<Settled, Memory>
    requires judged { IsJudged graph.now.links judged.now }
    requires size { length marked.now ≡ length (arrived_of graph.now.links) }
    requires given { All (λ p. p < length (arrived_of graph.now.links)) lawful.now }
    requires lawful { AreLawful graph.now.links judged.now.reasons.items marked.now (at_places (arrived_of graph.now.links) lawful.now) }
    ensures { IfOk result (λ settled. IsSettled graph.now.links (at_places (arrived_of graph.now.links) lawful.now) settled) }
{
    // A law: it does nothing at run time.
    graph.is_held();
    let acts = strikers_of(alloc, graph, lawful)?;
    let decisions = decide(alloc, graph, judged, marked, &acts)?;
    let standing = standing_flags(alloc, graph, &acts, &decisions)?;
    let struck = struck_flags(alloc, &judged.strikes, &standing)?;
    Ok(Settled {
        acts,
        decisions,
        standing,
        struck,
    })
}

/// What is decided of the striker of a position.
pub(crate) fn decision_at(settled: &Settled, position: u32) -> Decision
    requires each { length settled.now.decisions.items ≡ length settled.now.acts.items }
    ensures { result ≡ decided_at position settled.now.acts.items settled.now.decisions.items }
{
    for place in 0..settled.acts.len() {
        if settled.acts[place].id == position {
            return settled.decisions[place];
        }
    }
    Decision::Stands
}

/// The first striker, in the order of the team, that stands and strikes the link of a position.
pub(crate) fn first_striker(graph: &Graph, settled: &Settled, position: u32) -> Option<u32>
    requires sizes { HasSizes (length (arrived_of graph.now.links)) settled.now }
    requires given { position < length (arrived_of graph.now.links) }
    ensures { result ≡ first_standing graph.now.links settled.now.standing.items settled.now.acts.items position }
{
    for act in &settled.acts {
        if settled.standing[act.id as usize] && strikes_at(graph, act.id, position) {
            return Some(act.id);
        }
    }
    None
}
