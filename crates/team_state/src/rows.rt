ghost use Rattle.std.specs.Prelude.{◌≡◌, Bool, true, ◌<◌, ◌≤◌, ◌+◌, [], ◌∷◌, drop, take, length, IfErr, IfOk, option_copied, slice_index_or, vec_len, vec_capacity};
ghost use Rattle.std.specs.declared.cmp.Ordering.{Ordering};
ghost use Rattle.std.specs.Ordering.{eq_by_cmp};
ghost use Rattle.std.specs.List.{list_any};
ghost use Rattle.std.specs.List.Sorted.{IsSearchInRange};
ghost use Rattle.team_state.specs.Rows.{Ascend, IsSplit, row_with, with_row, without_key};

use std::alloc::Global;
use tg_text::Memory;

/// A row that can be copied.
pub(crate) trait Piece: Drop {
    /// An equal row.
    fn copy(&self, alloc: Global) -> Result<Self, Memory>
        ensures { IfOk result (λ it. it ≡ self.now) };
}

/// A row of a table that ascends by its key.
pub(crate) trait Row: Piece {
    type Key: Ord + Copy + Drop;

    ghost key_of: { Self → Self.Key };

    ghost order: { Self.Key → Self.Key → Ordering };

    ghost same: { Self.Key → Self.Key → Bool };

    /// The key of this row.
    fn key(&self) -> Self::Key
        ensures { result ≡ key_of self.now };

    ghost order_is: { (a b : Self.Key) → Self.Key.Ord.cmp a b ≡ order a b };

    ghost ties: { (a b : Self.Key) → same a b ≡ eq_by_cmp order a b };
}

/// Where the row with a key stands, or else where it would.
pub(crate) fn place_of<T: Row>(rows: &[T], key: &T::Key) -> Result<usize, usize>
    requires { Ascend T.order T.key_of rows.now }
    ensures within { IsSearchInRange result (length rows.now) }
    ensures found { IfOk result (λ i. (d : T) → IsSplit T.order T.key_of key.now rows.now (take i rows.now) (slice_index_or rows.now i d ∷ []) (drop (i + 1) rows.now)) }
    ensures absent { IfErr result (λ i. IsSplit T.order T.key_of key.now rows.now (take i rows.now) [] (drop i rows.now)) }
{
    rows.binary_search_by_key(key, |row| row.key())
}

/// The row with a key.
pub(crate) fn row_of<'a, T: Row>(rows: &'a [T], key: &T::Key) -> Option<&'a T>
    requires { Ascend T.order T.key_of rows.now }
    ensures { option_copied result ≡ row_with T.same T.key_of key.now rows.now }
{
    match place_of(rows, key) {
        Ok(place) => Some(&rows[place]),
        Err(_) => None,
    }
}

/// Puts a row in the place of the one with its key, or at its place in the order.
pub(crate) fn put_row<T: Row>(rows: &mut Vec<T>, row: T)
    requires ascends { Ascend T.order T.key_of rows.old.items }
    requires room { vec_len rows.old < vec_capacity rows.old }
    ensures rows { rows.new.items ≡ with_row T.order T.same T.key_of row rows.old.items }
    ensures ascends { Ascend T.order T.key_of rows.new.items }
    ensures longer { vec_len rows.new ≤ vec_len rows.old + 1 }
    ensures room { vec_capacity rows.new ≡ vec_capacity rows.old }
{
    let key = row.key();
    match place_of(rows.as_slice(), &key) {
        Ok(place) => rows[place] = row,
        Err(place) => {
            let _room = rows.insert(place, row);
        }
    }
}

/// Puts a row in the place of the one with its key, which is there. It wants no room.
pub(crate) fn replace_row<T: Row>(rows: &mut Vec<T>, row: T)
    requires ascends { Ascend T.order T.key_of rows.old.items }
    requires there { list_any (λ r. T.same (T.key_of r) (T.key_of row)) rows.old.items ≡ true }
    ensures { rows.new.items ≡ with_row T.order T.same T.key_of row rows.old.items }
{
    let key = row.key();
    if let Ok(place) = place_of(rows.as_slice(), &key) {
        rows[place] = row;
    }
}

/// Drops the row with a key, if there is one.
pub(crate) fn drop_row<T: Row>(rows: &mut Vec<T>, key: &T::Key)
    requires ascends { Ascend T.order T.key_of rows.old.items }
    ensures { rows.new.items ≡ without_key T.same T.key_of key.now rows.old.items }
{
    if let Ok(place) = place_of(rows.as_slice(), key) {
        rows.remove(place);
    }
}
