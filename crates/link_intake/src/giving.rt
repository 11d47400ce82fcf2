//! Items of a bundle are given to a graph.
ghost use Rattle.std.specs.Prelude.{◌≡◌, ◌⊎◌, ◌∷◌, ◌++◌, [], Some, None, Err, IfOk, OnOk, OnErr};
ghost use Rattle.link_intake.specs.declared.item_result.ItemResult.{ItemResult};
ghost use Rattle.link_intake.specs.Giving.{Becomes, IsBundleGiven, IsBundlePartGiven, IsGiven, IsPartGiven, TextBecomes, result_of};

use crate::item_result::{ItemResult, Refusal};
use link_graph::{Graph, TakeFault, Took};
use std::alloc::Global;
use team_files::{Item, read_items};
use tg_text::{Items, Memory};

// Why a text isn't taken, unless memory is short.
fn refusal_of(fault: &TakeFault) -> Result<ItemResult, Memory>
    ensures some { IfOk result (λ became. result_of (Err fault.now) ≡ Some became) }
    ensures none { OnErr result (result_of (Err fault.now) ≡ None) }
{
    match fault {
        TakeFault::TooLong => Ok(ItemResult::Refused(Refusal::TooLong)),
        TakeFault::BadText => Ok(ItemResult::Refused(Refusal::BadText)),
        TakeFault::OtherTeam => Ok(ItemResult::Refused(Refusal::OtherTeam)),
        TakeFault::BadSignature => Ok(ItemResult::Refused(Refusal::BadSignature)),
        TakeFault::NameClash { name } => Ok(ItemResult::Refused(Refusal::NameClash {
            name: *name,
        })),
        TakeFault::Full { .. } => Ok(ItemResult::Refused(Refusal::Full)),
        TakeFault::Memory => Err(Memory),
    }
}

/// What became of a text, by what a graph or another keeper of links answers to it. The answer to want of memory is no result.
pub fn result_of(answer: &Result<Took, TakeFault>) -> Result<ItemResult, Memory>
    ensures some { IfOk result (λ became. result_of answer.now ≡ Some became) }
    ensures none { OnErr result (result_of answer.now ≡ None) }
{
    match answer {
        Ok(Took::New { connected }) => Ok(ItemResult::New {
            connected: connected.len(),
        }),
        Ok(Took::Waiting) => Ok(ItemResult::Waiting),
        Ok(Took::Again) => Ok(ItemResult::Again),
        Err(fault) => refusal_of(fault),
    }
}

fn take_text(graph: &mut Graph, bytes: &[u8]) -> Result<ItemResult, Memory>
    ensures becomes { IfOk result (λ became. TextBecomes graph.old graph.new bytes.now became) }
    ensures same { OnErr result (graph.new ≡ graph.old) }
{
    result_of(&graph.take(bytes))
}

// Gives an item, and adds what becomes of it. Where there is no room to add it, the item may be given all the same.
fn give_item(graph: &mut Graph, item: &Item, results: &mut Items<ItemResult>) -> Result<(), Memory>
    ensures given { OnOk result ((became : ItemResult) × (results.new ≡ results.old ++ became ∷ []) × Becomes graph.old graph.new item.now became) }
    ensures part { OnErr result ((graph.new ≡ graph.old) ⊎ ((became : ItemResult) × Becomes graph.old graph.new item.now became)) }
{
    match item {
        Item::Header => results.push(ItemResult::Header),
        Item::Text(bytes) => results.push(take_text(graph, bytes.as_slice())?),
        Item::Cut => results.push(ItemResult::Refused(Refusal::Cut)),
        Item::BadFrame => results.push(ItemResult::Refused(Refusal::BadFrame)),
        Item::Long => results.push(ItemResult::Refused(Refusal::Long)),
    }
}

/// Gives the items to the graph in turn. What became of each stands in their order.
///
/// Where memory is short, some first items are given.
pub fn give_items(
    alloc: Global,
    graph: &mut Graph,
    items: &[Item],
) -> Result<Items<ItemResult>, Memory>
    ensures given { IfOk result (λ results. IsGiven graph.old items.now graph.new results) }
    ensures part { OnErr result (IsPartGiven graph.old items.now graph.new) }
{
    let mut results = Items::new(alloc);
    for item in items {
        give_item(graph, item, &mut results)?;
    }
    Ok(results)
}

/// Gives the items of a bundle to the graph, as `give_items` does.
pub fn give_bundle(
    alloc: Global,
    graph: &mut Graph,
    bundle: &[u8],
) -> Result<Items<ItemResult>, Memory>
    ensures given { IfOk result (λ results. IsBundleGiven graph.old bundle.now graph.new results) }
    ensures part { OnErr result (IsBundlePartGiven graph.old bundle.now graph.new) }
{
    let items = read_items(alloc, bundle)?;
    give_items(alloc, graph, items.as_slice())
}
