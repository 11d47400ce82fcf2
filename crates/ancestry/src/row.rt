ghost use Rattle.std.specs.Prelude.{◌≡◌, ◌||◌, ◌<◌, ◌≤◌, ◌++◌, if◌then◌else◌, [], ◌∷◌, ℕ, false, All, IfOk, OnOk, filter, length, slice_index_or};
ghost use Rattle.std.specs.List.{list_any, range_with_len};
ghost use Rattle.std.specs.List.Sorted.{IsStrictlySortedBy};
ghost use Rattle.std.specs.Ordering.{nat_cmp};
ghost use Rattle.tg_text.specs.Limits.{most_links};
ghost use Rattle.ancestry.specs.Positions.{height_of, past_of};
ghost use Rattle.ancestry.specs.Rows.{AreRows, has_number, parents_of};

use std::alloc::Global;
use tg_text::{Items, Memory};

/// A position: its parents, all its ancestors, which ascend, and its height.
#[derive(Debug, Drop)]
pub(crate) struct Row {
    pub(crate) parents: Items<u32>,
    pub(crate) past: Items<u32>,
    pub(crate) height: u32,
}

/// The ancestors of a position.
pub(crate) fn past_at(rows: &[Row], position: u32) -> &[u32]
    requires rows { AreRows rows.now }
    requires given { position < length rows.now }
    ensures { result.now ≡ past_of (parents_of rows.now) position }
{
    rows[position as usize].past.as_slice()
}

pub(crate) fn height_at(rows: &[Row], position: u32) -> u32
    requires rows { AreRows rows.now }
    requires given { position < length rows.now }
    ensures height { result ≡ height_of (parents_of rows.now) position }
    ensures low { result ≤ position }
{
    rows[position as usize].height
}

/// Whether a number is one of a list that ascends.
pub(crate) fn is_among(numbers: &[u32], number: u32) -> bool
    requires { IsStrictlySortedBy nat_cmp numbers.now }
    ensures { result ≡ has_number numbers.now number }
{
    numbers.binary_search(&number).is_ok()
}

fn mark(marks: &mut Vec<bool>, numbers: &[u32])
    requires { All (λ n. n < length marks.old.items) numbers.now }
    ensures size { length marks.new.items ≡ length marks.old.items }
    ensures told { (i : ℕ) → slice_index_or marks.new.items i false ≡ (slice_index_or marks.old.items i false || has_number numbers.now i) }
{
    for number in numbers {
        marks[*number as usize] = true;
    }
}

fn push_if_marked(numbers: &mut Vec<u32>, marks: &[bool], number: usize) -> Result<(), Memory>
    requires within { number < length marks.now }
    requires few { length marks.now ≤ most_links }
    ensures { OnOk result (numbers.new.items ≡ numbers.old.items ++ (if slice_index_or marks.now number false then number ∷ [] else [])) }
{
    if marks[number] {
        numbers.push(number as u32)?;
    }
    Ok(())
}

/// The marked numbers, which ascend.
fn marked(alloc: Global, marks: &[bool]) -> Result<Vec<u32>, Memory>
    requires { length marks.now ≤ most_links }
    ensures { IfOk result (λ numbers. numbers.items ≡ filter (λ i. slice_index_or marks.now i false) (range_with_len 0 (length marks.now))) }
{
    let mut numbers = Vec::new(alloc);
    for number in 0..marks.len() {
        push_if_marked(&mut numbers, marks, number)?;
    }
    Ok(numbers)
}

/// Marks each of these positions, and its ancestors.
fn mark_with_pasts(marks: &mut Vec<bool>, rows: &[Row], positions: &[u32])
    requires rows { AreRows rows.now }
    requires size { length marks.old.items ≡ length rows.now }
    requires given { All (λ p. p < length rows.now) positions.now }
    ensures size { length marks.new.items ≡ length rows.now }
    ensures told { (i : ℕ) → slice_index_or marks.new.items i false
        ≡ (slice_index_or marks.old.items i false || (has_number positions.now i || list_any (λ p. has_number (past_of (parents_of rows.now) p) i) positions.now)) }
{
    mark(marks, positions);
    for position in positions {
        mark(marks, past_at(rows, *position));
    }
}

/// The ancestors of a position that comes next and has these parents.
pub(crate) fn next_past(alloc: Global, rows: &[Row], parents: &[u32]) -> Result<Items<u32>, Memory>
    requires rows { AreRows rows.now }
    requires given { All (λ p. p < length rows.now) parents.now }
    ensures { IfOk result (λ past. past ≡ past_of (parents_of rows.now ++ parents.now ∷ []) (length rows.now)) }
{
    let mut marks = vec![in alloc; false; rows.len()]?;
    mark_with_pasts(&mut marks, rows, parents);
    let past = marked(alloc, &marks)?;
    Ok(Items::from_vec(past))
}

/// The height of a position that comes next and has these parents.
pub(crate) fn next_height(rows: &[Row], parents: &[u32]) -> u32
    requires rows { AreRows rows.now }
    requires given { All (λ p. p < length rows.now) parents.now }
    ensures height { result ≡ height_of (parents_of rows.now ++ parents.now ∷ []) (length rows.now) }
    ensures low { result ≤ length rows.now }
{
    let mut height = 0;
    for parent in parents {
        height = height.max(height_at(rows, *parent) + 1);
    }
    height
}
