//! Texts of links are offered to a keeper.
ghost use Rattle.std.specs.Prelude.{◌≡◌, map, IfOk, OnErr};
ghost use Rattle.team_files.specs.declared.item.Item.TheVariants.{Text};
ghost use Rattle.link_intake.specs.Giving.{IsGiven, IsPartGiven, TextBecomes};
ghost use Rattle.link_intake.specs.ResultsText.{count, is_refused};
ghost use Rattle.link_intake.specs.declared.item_result.ItemResult.{ItemResult};
ghost use Rattle.head_sync.specs.Bodies.{lent};
ghost use Rattle.head_sync.specs.Steps.{AreOffered};

use link_graph::LinkKeeper;
use link_intake::{ItemResult, result_of};
use std::alloc::Global;
use tg_outside::{StepLedger, Steps};
use tg_text::Memory;

/// Offers each text once, in their order, and answers how many were refused.
///
/// Where memory is short, some first texts are offered.
pub(crate) fn offer_texts<H: LinkKeeper, L: StepLedger>(
    alloc: Global,
    keeper: &mut H,
    texts: &[&[u8]],
    steps: &mut Steps<L>,
) -> Result<u32, Memory>
    ensures given { IfOk result (λ refused. AreOffered (H.held keeper.old) (lent texts.now) (H.held keeper.new) refused) }
    ensures part { OnErr result (IsPartGiven (H.held keeper.old) (map Text (lent texts.now)) (H.held keeper.new)) }
{
    let mut refused = 0_u32;
    for i in 0..texts.len() {
        let became = offer_text(alloc, keeper, texts[i], steps)?;
        if let ItemResult::Refused(_) = became {
            refused = refused.saturating_add(1);
        }
    }
    Ok(refused)
}

fn offer_text<H: LinkKeeper, L: StepLedger>(
    alloc: Global,
    keeper: &mut H,
    text: &[u8],
    steps: &mut Steps<L>,
) -> Result<ItemResult, Memory>
    ensures becomes { IfOk result (λ became. TextBecomes (H.held keeper.old) (H.held keeper.new) text.now became) }
    ensures same { OnErr result (H.held keeper.new ≡ H.held keeper.old) }
{
    result_of(&keeper.offer(alloc, text, steps))
}
