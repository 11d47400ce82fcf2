ghost use Rattle.std.specs.Prelude.{◌≡◌, ◌+◌, IfOk, OnErr, OnOk};
ghost use Rattle.team_model.specs.ActTable.{after, effect, refusal};
ghost use Rattle.team_model.specs.KeyLines.{lined};
ghost use Rattle.team_model.specs.Writes.{with_boxes};

use crate::effects::act;
use crate::laws::teams_are_sound;
use crate::lining::{has_no_lines, take_lines};
use crate::permitting::permits;
use acts::Entry;
use std::alloc::Global;
use team_model::Reason;
use team_state::TeamState;
use tg_outside::{StepLedger, Steps};
use tg_text::{BoxLine, Memory};

/// Does what an entry's act does, where it is permitted, and takes the key lines that fit. Gives the reason where it is refused, and then leaves the state as it
/// is. One step is counted, without memory too.
pub fn apply<L: StepLedger>(
    alloc: Global,
    state: &mut TeamState,
    entry: &Entry,
    steps: &mut Steps<L>,
) -> Result<Option<Reason>, Memory>
    ensures reason { IfOk result (λ r. r ≡ refusal state.old entry.now) }
    ensures ok { OnOk result (state.new ≡ after state.old entry.now) }
    ensures err { OnErr result (state.new ≡ state.old) }
    ensures step { steps.new ≡ steps.old + 1 }
{
    // A law: it does nothing at run time.
    teams_are_sound();
    steps.tick();
    if let Err(reason) = permits(state, entry) {
        return Ok(Some(reason));
    }
    act_with_lines(alloc, state, entry)?;
    Ok(None)
}

// Does what an entry's act does by itself, and then takes the key lines that fit.
fn act_with_lines(alloc: Global, state: &mut TeamState, entry: &Entry) -> Result<(), Memory>
    ensures ok { OnOk result (state.new ≡ lined (effect state.old entry.now entry.now.act) entry.now) }
    ensures err { OnErr result (state.new ≡ state.old) }
{
    if has_no_lines(entry) {
        return act(alloc, state, entry);
    }
    let (next, boxes) = lined_after(alloc, state, entry)?;
    state.become_with(next, boxes)
}

// The state after an entry, but for the boxes that the entry adds, and these. The boxes that are held are shared.
fn lined_after(
    alloc: Global,
    state: &TeamState,
    entry: &Entry,
) -> Result<(TeamState, Vec<BoxLine>), Memory>
    ensures boxes { IfOk result (λ taken. taken.0.boxes ≡ state.now.boxes) }
    ensures lined { IfOk result (λ taken. with_boxes taken.0 taken.1.items ≡ lined (effect state.now entry.now entry.now.act) entry.now) }
{
    let mut next = state.copy()?;
    act(alloc, &mut next, entry)?;
    take_lines(alloc, &next, entry)
}
