//! The `box` lines of an entry: which fit in the state after the act's own effect, once the new keys are taken.
ghost use Rattle.std.specs.Prelude.{◌≡◌, ◌++◌, ◌&&◌, not, length, nat_lt, IfOk};
ghost use Rattle.std.specs.List.{list_any};
ghost use Rattle.team_sets.specs.Closure.{has};
ghost use Rattle.team_sets.specs.Members.{IsIn};
ghost use Rattle.tg_text.specs.Order.{key_cmp};
ghost use Rattle.tg_text.specs.declared.keys.BoxLine.{BoxLine as Line};
ghost use Rattle.key_reach.specs.Keys as words;
ghost use Rattle.key_reach.specs.Lists.{IsListOf};
ghost use Rattle.team_model.specs.KeyLines as lines;
ghost use Rattle.team_model.specs.KeyTables.{is_allowed, key_table};
ghost use Rattle.team_model.specs.Limits.{most_boxes};

use crate::known::{copy_line, known_boxes};
use crate::news::is_among;
use key_reach::KeyTable;
use std::alloc::Global;
use team_model::MOST_BOXES;
use team_state::TeamState;
use tg_text::{BoxLine, KeyId, Memory};

/// The lines that fit, copied. `keyed` is the state with the new keys, and `tainted` are the tainted keys of the state before them.
pub(crate) fn taken_boxes(
    alloc: Global,
    state: &TeamState,
    keyed: &TeamState,
    tainted: &[KeyId],
    boxes: &[BoxLine],
) -> Result<Vec<BoxLine>, Memory>
    requires { IsListOf key_cmp (words.tainted (key_table state.now)) tainted.now }
    ensures { IfOk result (λ taken. taken.items ≡ lines.taken_boxes state.now (words.current_keys (key_table keyed.now)) boxes.now) }
{
    if boxes.is_empty() {
        return Ok(Vec::new(alloc));
    }
    let known = known_boxes(alloc, state.boxes(), boxes)?;
    take_boxes(alloc, state, keyed, tainted, known.as_slice(), boxes)
}

// `known` are the held boxes that may be among the lines.
fn take_boxes(
    alloc: Global,
    state: &TeamState,
    keyed: &TeamState,
    tainted: &[KeyId],
    known: &[BoxLine],
    boxes: &[BoxLine],
) -> Result<Vec<BoxLine>, Memory>
    requires tainted { IsListOf key_cmp (words.tainted (key_table state.now)) tainted.now }
    requires known { (b : Line) → IsIn b boxes.now → list_any (lines.same_line b) known.now ≡ list_any (lines.same_line b) state.now.boxes }
    ensures { IfOk result (λ taken. taken.items ≡ lines.taken_boxes state.now (words.current_keys (key_table keyed.now)) boxes.now) }
{
    let mut taken = Vec::new(alloc);
    for line in boxes {
        if box_fits(state, keyed, tainted, known, taken.as_slice(), line) {
            taken.push(copy_line(alloc, line)?)?;
        }
    }
    Ok(taken)
}

fn box_fits(
    state: &TeamState,
    keyed: &TeamState,
    tainted: &[KeyId],
    known: &[BoxLine],
    taken: &[BoxLine],
    line: &BoxLine,
) -> bool
    requires tainted { IsListOf key_cmp (words.tainted (key_table state.now)) tainted.now }
    requires known { list_any (lines.same_line line.now) known.now ≡ list_any (lines.same_line line.now) state.now.boxes }
    ensures { result ≡ lines.box_fits state.now (words.current_keys (key_table keyed.now)) (state.now.boxes ++ taken.now) line.now }
{
    joins_well(state, keyed, tainted, line) && has_place(state, known, taken, line)
}

// Whether both keys are current, the arrow is allowed, and the recipient is clean.
fn joins_well(state: &TeamState, keyed: &TeamState, tainted: &[KeyId], line: &BoxLine) -> bool
    requires { IsListOf key_cmp (words.tainted (key_table state.now)) tainted.now }
    ensures { result ≡ (has words.same_key (words.current_keys (key_table keyed.now)) line.now.to && (has words.same_key (words.current_keys (key_table keyed.now)) line.now.of
        && (is_allowed state.now line.now.to.scope line.now.of.scope && not (words.is_tainted (key_table state.now) line.now.to)))) }
{
    keyed.is_current(&line.to)
        && keyed.is_current(&line.of)
        && state.allowed(&line.to.scope, &line.of.scope)
        && is_clean(state, tainted, &line.to)
}

fn is_clean(state: &TeamState, tainted: &[KeyId], key: &KeyId) -> bool
    requires { IsListOf key_cmp (words.tainted (key_table state.now)) tainted.now }
    ensures { result ≡ not (words.is_tainted (key_table state.now) key.now) }
{
    // The tables stand for those whose tainted keys are given.
    let _tables = state;
    !is_among(tainted, key)
}

// Whether the line isn't held yet, and room is left for a box.
fn has_place(state: &TeamState, known: &[BoxLine], taken: &[BoxLine], line: &BoxLine) -> bool
    requires { list_any (lines.same_line line.now) known.now ≡ list_any (lines.same_line line.now) state.now.boxes }
    ensures { result ≡ (not (list_any (lines.same_line line.now) (state.now.boxes ++ taken.now)) && nat_lt (length (state.now.boxes ++ taken.now)) most_boxes) }
{
    !has_line(known, line) && !has_line(taken, line) && has_room(state.boxes(), taken)
}

fn has_line(boxes: &[BoxLine], line: &BoxLine) -> bool
    ensures { result ≡ list_any (lines.same_line line.now) boxes.now }
{
    boxes.iter().any(|other| is_same_line(line, other))
}

fn is_same_line(line: &BoxLine, other: &BoxLine) -> bool
    ensures { result ≡ lines.same_line line.now other.now }
{
    is_same_key(&line.to, &other.to)
        && is_same_key(&line.of, &other.of)
        && line.bytes.as_slice() == other.bytes.as_slice()
}

fn is_same_key(key: &KeyId, other: &KeyId) -> bool
    ensures { result ≡ words.same_key key.now other.now }
{
    key.cmp(other).is_eq()
}

fn has_room(held: &[BoxLine], taken: &[BoxLine]) -> bool
    ensures { result ≡ nat_lt (length (held.now ++ taken.now)) most_boxes }
{
    match MOST_BOXES.checked_sub(held.len()) {
        Some(left) => taken.len() < left,
        None => false,
    }
}
