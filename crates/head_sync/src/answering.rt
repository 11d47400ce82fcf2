//! What an end sends of what its keeper holds.
ghost use Rattle.std.specs.Prelude.{◌≡◌, ◌+◌, ◌-◌, ◌<◌, ◌^◌, ◌∷◌, ◌&&◌, ◌||◌, ◌==◌, [], All, IfOk, length, min, nat_le, nat_lt};
ghost use Rattle.link_graph.specs.Heads.{heads_of};
ghost use Rattle.link_graph.specs.Held.{arrived_of};
ghost use Rattle.head_sync.specs.Messages.{ask, message_text, most_given_bytes, most_given_links};
ghost use Rattle.head_sync.specs.Sessions.{closing_of, gives, lacking};
ghost use Rattle.head_sync.specs.Texts.{texts_at};

use crate::reading::MOST_GIVEN_LINKS;
use crate::writing::{ask_text, done_text, give_text};
use link_graph::LinkKeeper;
use std::alloc::Global;
use tg_text::{Bytes, Items, LinkName, Memory};

// How many bytes of text a message that is sent gives at most.
const MOST_GIVEN_BYTES: usize = 4_194_304;

/// Those of the heads that aren't connected here.
pub(crate) fn lacking<H: LinkKeeper>(
    alloc: Global,
    keeper: &H,
    heads: &[LinkName],
) -> Result<Items<LinkName>, Memory>
    ensures { IfOk result (λ names. names ≡ lacking (H.held keeper.now) heads.now) }
{
    let mut names = Items::new(alloc);
    for head in heads {
        if !keeper.is_connected(head) {
            names.push(*head)?;
        }
    }
    Ok(names)
}

/// The message that asks for names, with the own heads as marks.
pub(crate) fn asking<H: LinkKeeper>(
    alloc: Global,
    keeper: &H,
    names: &[LinkName],
) -> Result<Items<Bytes>, Memory>
    ensures { IfOk result (λ sent. sent ≡ message_text (H.held keeper.now).team (ask names.now (heads_of (H.held keeper.now).links)) ∷ []) }
{
    let text = ask_text(alloc, &keeper.team(), names, keeper.heads())?;
    one_message(alloc, text)
}

/// The message that says that this end is done, and its heads.
pub(crate) fn closing<H: LinkKeeper>(
    alloc: Global,
    keeper: &H,
) -> Result<(Items<Bytes>, Items<LinkName>), Memory>
    ensures sent { IfOk result (λ r. r.0 ≡ closing_of (H.held keeper.now) ∷ []) }
    ensures heads { IfOk result (λ r. r.1 ≡ heads_of (H.held keeper.now).links) }
{
    let text = done_text(alloc, &keeper.team(), keeper.heads())?;
    let sent = one_message(alloc, text)?;
    let heads = Vec::from_slice(alloc, keeper.heads())?;
    Ok((sent, Items::from_vec(heads)))
}

fn one_message(alloc: Global, text: Bytes) -> Result<Items<Bytes>, Memory>
    ensures { IfOk result (λ sent. sent ≡ text ∷ []) }
{
    let mut sent = Items::new(alloc);
    sent.push(text)?;
    Ok(sent)
}

/// The messages that give the links of these positions.
pub(crate) fn giving<H: LinkKeeper>(
    alloc: Global,
    keeper: &H,
    positions: &[u32],
) -> Result<Items<Bytes>, Memory>
    requires given { All (λ p. p < length (arrived_of (H.held keeper.now).links)) positions.now }
    ensures { IfOk result (λ sent. sent ≡ gives (H.held keeper.now).team [] (texts_at (H.held keeper.now).links positions.now)) }
{
    let mut sent = Items::new(alloc);
    let mut start = 0;
    let mut size = 0;
    for i in 0..positions.len() {
        let text = keeper.text_at(positions[i]);
        if !fits(i - start, size, text) {
            sent.push(give_text(alloc, keeper, true, &positions[start..i])?)?;
            start = i;
            size = 0;
        }
        size = size_with(size, text);
    }
    let last = positions.split_at(start).1;
    sent.push(give_text(alloc, keeper, false, last)?)?;
    Ok(sent)
}

// Whether a text fits into a message with so many texts, which have so many bytes.
fn fits(count: usize, size: usize, text: &[u8]) -> bool
    ensures { result ≡ ((count == 0) || (nat_lt count most_given_links && nat_le (min (size + length text.now) (2 ^ 64 - 1)) most_given_bytes)) }
{
    count == 0 || (count < MOST_GIVEN_LINKS && size_with(size, text) <= MOST_GIVEN_BYTES)
}

// The number of bytes stays at the greatest.
fn size_with(size: usize, text: &[u8]) -> usize
    ensures { result ≡ min (size + length text.now) (2 ^ 64 - 1) }
{
    size.saturating_add(text.len())
}
