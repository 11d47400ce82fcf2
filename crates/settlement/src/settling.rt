ghost use Rattle.std.specs.Prelude.{◌≡◌, map, IfOk, OnOk, Some};
ghost use Rattle.std.specs.List.{list_any};
ghost use Rattle.team_sets.specs.Settlement.{conflicts, stand_next, standing};
ghost use Rattle.settlement.specs.Ranks.{AreStrikers, decision_of, is_senior};
ghost use Rattle.settlement.specs.Pairs.{decision_at, decision_from, HasPairs, set_strikes};

use crate::ranking::by_rank;
use crate::striker::{Decision, Striker};
use std::alloc::Global;
use std::collections::HashSet;
use tg_text::Memory;

fn pair_set(alloc: Global, strikes: &[(u32, u32)]) -> Result<HashSet<(u32, u32)>, Memory>
    ensures { IfOk result (λ pairs. HasPairs strikes.now pairs) }
{
    let mut pairs = HashSet::new(alloc);
    for pair in strikes {
        pairs.insert(*pair)?;
    }
    Ok(pairs)
}

fn strikes_act(pairs: &HashSet<(u32, u32)>, x: &Striker, y: &Striker) -> bool
    ensures { result ≡ set_strikes pairs.now x.now y.now }
{
    pairs.contains(&(x.id, y.id))
}

/// Whether one of the two acts strikes the other.
fn has_strike(pairs: &HashSet<(u32, u32)>, x: &Striker, y: &Striker) -> bool
    ensures { result ≡ conflicts is_senior (set_strikes pairs.now) x.now y.now }
{
    strikes_act(pairs, x, y) || strikes_act(pairs, y, x)
}

/// Whether one of those that stand has a strike with the act.
fn is_met(stood: &[Striker], pairs: &HashSet<(u32, u32)>, act: &Striker) -> bool
    ensures { result ≡ list_any (λ s. conflicts is_senior (set_strikes pairs.now) s act.now) stood.now }
{
    stood.iter().any(|s| has_strike(pairs, s, act))
}

/// Lets the act stand where it has no strike with one that stands already.
fn stand(stood: &mut Vec<Striker>, pairs: &HashSet<(u32, u32)>, act: &Striker) -> Result<(), Memory>
    ensures { OnOk result (stood.new.items ≡ stand_next is_senior (set_strikes pairs.now) stood.old.items act.now) }
{
    if !is_met(stood, pairs, act) {
        stood.push(*act)?;
    }
    Ok(())
}

/// The standing acts, the most senior first.
fn standing_of(
    alloc: Global,
    acts: &[Striker],
    pairs: &HashSet<(u32, u32)>,
) -> Result<Vec<Striker>, Memory>
    ensures { IfOk result (λ stood. stood.items ≡ standing is_senior (set_strikes pairs.now) acts.now) }
{
    let ranked = by_rank(alloc, acts)?;
    let mut stood: Vec<Striker> = Vec::new(alloc);
    for act in &ranked {
        stand(&mut stood, pairs, act)?;
    }
    Ok(stood)
}

/// What is decided of an act that leaves at the turn of `s`.
fn decide_by(pairs: &HashSet<(u32, u32)>, s: &Striker, act: &Striker) -> Decision
    ensures { result ≡ decision_at (set_strikes pairs.now) act.now (Some s.now) }
{
    if strikes_act(pairs, s, act) {
        Decision::Struck(s.id)
    } else {
        Decision::Lost(s.id)
    }
}

fn decide(pairs: &HashSet<(u32, u32)>, stood: &[Striker], act: &Striker) -> Decision
    ensures { result ≡ decision_from (set_strikes pairs.now) stood.now act.now }
{
    for s in stood {
        if has_strike(pairs, s, act) {
            return decide_by(pairs, s, act);
        }
    }
    Decision::Stands
}

fn decide_all(
    alloc: Global,
    acts: &[Striker],
    pairs: &HashSet<(u32, u32)>,
) -> Result<Vec<Decision>, Memory>
    ensures { IfOk result (λ decisions. decisions.items ≡ map (decision_from (set_strikes pairs.now) (standing is_senior (set_strikes pairs.now) acts.now)) acts.now) }
{
    let stood = standing_of(alloc, acts, pairs)?;
    let mut decisions = Vec::new(alloc);
    for act in acts {
        decisions.push(decide(pairs, &stood, act))?;
    }
    Ok(decisions)
}

/// Settles acts that strike each other: one decision for each, in the order given. A pair of ids says that the act of the first
/// strikes that of the second.
pub fn settle_all(
    alloc: Global,
    acts: &[Striker],
    strikes: &[(u32, u32)],
) -> Result<Vec<Decision>, Memory>
    requires { AreStrikers acts.now strikes.now }
    ensures { IfOk result (λ decisions. decisions.items ≡ map (decision_of strikes.now acts.now) acts.now) }
{
    let pairs = pair_set(alloc, strikes)?;
    decide_all(alloc, acts, &pairs)
}
