//! Generated histories: a team is shown the same in whatever order its links came.
use replica::{Replica, Verdict};
use std::alloc::Global;
use team_report::show_text;
use team_samples::{Draws, History, all_but, backwards, make_history, shuffled};
use tg_outside::{Silent, Steps};
use tg_text::Bytes;

// What is shown of some links of a history, and how many of them wait, are unlawful, and are refused at their turn.
#[derive(Drop)]
struct Shown {
    text: Bytes,
    waiting: u32,
    unlawful: u32,
    refused: u32,
}

// What is shown after these links came in this order; `None` where one isn't taken, or for want of memory.
fn show_after(alloc: Global, history: &History, order: &[usize]) -> Option<Shown> {
    let mut replica = Replica::new(alloc, history.team).ok()?;
    for &place in order {
        let text = history.texts.get(place)?;
        replica
            .insert(alloc, text.as_slice(), &mut Steps::new(Silent))
            .ok()?;
    }
    let text = show_text(alloc, &replica).ok()?;
    let graph = replica.graph();
    let waiting = graph.held().saturating_sub(graph.connected());
    let (unlawful, refused) = not_counting(replica.view().verdicts.as_slice());
    Some(Shown {
        text,
        waiting,
        unlawful,
        refused,
    })
}

fn are_alike(one: &Shown, other: &Shown) -> bool {
    one.text == other.text
        && one.waiting == other.waiting
        && one.unlawful == other.unlawful
        && one.refused == other.refused
}

// How many are unlawful, and how many refused at their turn.
fn not_counting(verdicts: &[Verdict]) -> (u32, u32) {
    let (mut unlawful, mut refused) = (0u32, 0u32);
    for verdict in verdicts {
        match verdict {
            Verdict::Unlawful(_) => unlawful = unlawful.saturating_add(1),
            Verdict::Refused(_) => refused = refused.saturating_add(1),
            _ => {}
        }
    }
    (unlawful, refused)
}

// What is shown of these links of a history, and whether it is the same backwards and shuffled.
fn show_order(
    alloc: Global,
    history: &History,
    number: u64,
    order: &[usize],
) -> Option<(Shown, bool)> {
    let last_first = backwards(alloc, order).ok()?;
    let mixed = shuffled(alloc, &mut Draws { state: number }, order).ok()?;
    let forwards = show_after(alloc, history, order)?;
    let last_first = show_after(alloc, history, last_first.as_slice())?;
    let mixed = show_after(alloc, history, mixed.as_slice())?;
    let is_same = are_alike(&last_first, &forwards) && are_alike(&mixed, &forwards);
    Some((forwards, is_same))
}

// The same of a history with one link left out, on which others wait.
fn show_history(alloc: Global, number: u64) -> Option<(Shown, bool)> {
    let history = make_history(alloc, number, number.saturating_mul(2)).ok()?;
    let order = all_but(alloc, history.texts.len(), number as usize / 2 + 1).ok()?;
    show_order(alloc, &history, number, order.as_slice())
}

// How many links of the histories wait, are unlawful and are refused at their turn, where each is shown the same in any order.
fn show_all(alloc: Global) -> Option<[u32; 3]> {
    let mut all = [0u32; 3];
    for number in 1..31 {
        let (shown, is_same) = show_history(alloc, number)?;
        if !is_same {
            return None;
        }
        all = [
            all[0].saturating_add(shown.waiting),
            all[1].saturating_add(shown.unlawful),
            all[2].saturating_add(shown.refused),
        ];
    }
    Some(all)
}

// Histories of 2 to 60 links. How many of these wait, are unlawful and are refused at their turn was computed by another program.
#[test]
fn thirty_histories_are_shown_the_same_in_any_order(rt: HostRuntime) {
    assert!(rt; show_all(rt.alloc()) == Some([194, 388, 28]));
}
