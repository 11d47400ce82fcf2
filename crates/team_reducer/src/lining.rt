//! The key lines of an entry, as they change the state after the act's own effect.
ghost use Rattle.std.specs.Prelude.{◌≡◌, false, IfOk, OnOk};
ghost use Rattle.std.specs.List.{AllByRecursion};
ghost use Rattle.tg_text.specs.declared.keys.KeyId.{KeyId as Key};
ghost use Rattle.key_reach.specs.Keys.{is_device};
ghost use Rattle.team_model.specs.KeyLines as words;
ghost use Rattle.team_model.specs.Writes.{with_boxes};
ghost use Rattle.team_reducer.specs.News.{has_no_lines, with_keys};

use crate::boxes::taken_boxes;
use crate::news::taken_news;
use acts::Entry;
use key_reach::tainted;
use std::alloc::Global;
use team_state::TeamState;
use tg_text::{BoxLine, KeyId, Memory};

/// Whether an entry brings no key lines.
pub(crate) fn has_no_lines(entry: &Entry) -> bool
    ensures { result ≡ has_no_lines entry.now }
{
    entry.lines.news.as_slice().is_empty() && entry.lines.boxes.as_slice().is_empty()
}

/// The state with the new keys of an entry that fit, and the boxes that fit then. The state given is that after the act's own effect.
pub(crate) fn take_lines(
    alloc: Global,
    state: &TeamState,
    entry: &Entry,
) -> Result<(TeamState, Vec<BoxLine>), Memory>
    ensures boxes { IfOk result (λ taken. taken.0.boxes ≡ state.now.boxes) }
    ensures lined { IfOk result (λ taken. with_boxes taken.0 taken.1.items ≡ words.lined state.now entry.now) }
{
    let mut keyed = state.copy()?;
    if !state.lists(&entry.user, &entry.device) {
        return Ok((keyed, Vec::new(alloc)));
    }
    let tainted = tainted(alloc, state)?;
    let news = entry.lines.news.as_slice();
    let news = taken_news(alloc, state, tainted.as_slice(), entry, news)?;
    put_keys(&mut keyed, news.as_slice())?;
    let boxes = entry.lines.boxes.as_slice();
    let boxes = taken_boxes(alloc, state, &keyed, tainted.as_slice(), boxes)?;
    Ok((keyed, boxes))
}

// Makes each of these keys the current one of its scope.
fn put_keys(state: &mut TeamState, keys: &[KeyId]) -> Result<(), Memory>
    requires { AllByRecursion (λ (k : Key). is_device k.scope ≡ false) keys.now }
    ensures { OnOk result (state.new ≡ with_keys state.old keys.now) }
{
    for key in keys {
        state.put_key(*key)?;
    }
    Ok(())
}
