//! Tables behind `Rc`, which are copied when they are written while they are shared.
ghost use Rattle.std.specs.Prelude.{◌≡◌, ◌<◌, true, [], ◌∷◌, ◌++◌, IfOk, OnErr, OnOk, vec_len, vec_capacity};
ghost use Rattle.std.specs.List.{list_any};
ghost use Rattle.team_state.specs.Rows.{Ascend, with_row, without_key};

use crate::rows::{Piece, Row, drop_row, put_row, replace_row};
use std::alloc::{AllocError, Global};
use std::rc::Rc;
use tg_text::Memory;

/// The rows of a table.
#[derive(Debug, Drop)]
pub(crate) struct Table<T> {
    alloc: Global,
    pub rows: Vec<T>,
}

impl<T: Piece> Clone for Table<T> {
    ghost is_clone = { λ old new. new.rows.items ≡ old.rows.items };

    fn clone(&self) -> Result<Table<T>, AllocError> {
        match copy_rows(self.alloc, self.rows.as_slice()) {
            Ok(rows) => Ok(Table {
                alloc: self.alloc,
                rows,
            }),
            Err(Memory) => Err(AllocError),
        }
    }
}

fn copy_rows<T: Piece>(alloc: Global, rows: &[T]) -> Result<Vec<T>, Memory>
    ensures { IfOk result (λ copies. copies.items ≡ rows.now) }
{
    let mut copies = Vec::with_capacity(alloc, rows.len())?;
    for row in rows {
        copies.push(row.copy(alloc)?)?;
    }
    Ok(copies)
}

/// A table with these rows.
pub(crate) fn make_table<T: Drop>(alloc: Global, rows: Vec<T>) -> Result<Rc<Table<T>>, Memory>
    ensures { IfOk result (λ table. table.value.rows.items ≡ rows.items) }
{
    Ok(Rc::new(alloc, Table { alloc, rows })?)
}

/// Adds a row at the end.
pub(crate) fn append<T: Piece>(table: &mut Rc<Table<T>>, row: T) -> Result<(), Memory>
    ensures ok { OnOk result (table.new.value.rows.items ≡ table.old.value.rows.items ++ row ∷ []) }
    ensures err { OnErr result (table.new.value.rows.items ≡ table.old.value.rows.items) }
{
    let table = Rc::make_mut(table)?;
    table.rows.push(row)?;
    Ok(())
}

/// Adds rows at the end: all of them or, without memory, none.
pub(crate) fn append_all<T: Piece>(table: &mut Rc<Table<T>>, mut rows: Vec<T>) -> Result<(), Memory>
    ensures ok { OnOk result (table.new.value.rows.items ≡ table.old.value.rows.items ++ rows.items) }
    ensures err { OnErr result (table.new.value.rows.items ≡ table.old.value.rows.items) }
{
    if rows.is_empty() {
        return Ok(());
    }
    let table = Rc::make_mut(table)?;
    table.rows.append(&mut rows)?;
    Ok(())
}

/// Puts a row into a table.
pub(crate) fn put<T: Row>(table: &mut Rc<Table<T>>, row: T) -> Result<(), Memory>
    requires { Ascend T.order T.key_of table.old.value.rows.items }
    ensures ok { OnOk result (table.new.value.rows.items ≡ with_row T.order T.same T.key_of row table.old.value.rows.items) }
    ensures err { OnErr result (table.new.value.rows.items ≡ table.old.value.rows.items) }
{
    let table = Rc::make_mut(table)?;
    table.rows.reserve(1)?;
    put_row(&mut table.rows, row);
    Ok(())
}

/// Puts a row into each of two tables, or into none where memory is short.
pub(crate) fn put_both<S: Row, T: Row>(
    first: &mut Rc<Table<S>>,
    second: &mut Rc<Table<T>>,
    row: S,
    other: T,
) -> Result<(), Memory>
    requires first { Ascend S.order S.key_of first.old.value.rows.items }
    requires second { Ascend T.order T.key_of second.old.value.rows.items }
    ensures first { OnOk result (first.new.value.rows.items ≡ with_row S.order S.same S.key_of row first.old.value.rows.items) }
    ensures second { OnOk result (second.new.value.rows.items ≡ with_row T.order T.same T.key_of other second.old.value.rows.items) }
    ensures first_stays { OnErr result (first.new.value.rows.items ≡ first.old.value.rows.items) }
    ensures second_stays { OnErr result (second.new.value.rows.items ≡ second.old.value.rows.items) }
{
    let first = Rc::make_mut(first)?;
    first.rows.reserve(1)?;
    let second = Rc::make_mut(second)?;
    second.rows.reserve(1)?;
    put_row(&mut first.rows, row);
    put_row(&mut second.rows, other);
    Ok(())
}

/// Puts a row in the place of the one with its key in a table, and drops one from another, or does neither where memory is short.
pub(crate) fn replace_and_drop<S: Row, T: Row>(
    first: &mut Rc<Table<S>>,
    second: &mut Rc<Table<T>>,
    row: S,
    other: &T::Key,
) -> Result<(), Memory>
    requires first { Ascend S.order S.key_of first.old.value.rows.items }
    requires there { list_any (λ r. S.same (S.key_of r) (S.key_of row)) first.old.value.rows.items ≡ true }
    requires second { Ascend T.order T.key_of second.old.value.rows.items }
    ensures first { OnOk result (first.new.value.rows.items ≡ with_row S.order S.same S.key_of row first.old.value.rows.items) }
    ensures second { OnOk result (second.new.value.rows.items ≡ without_key T.same T.key_of other.now second.old.value.rows.items) }
    ensures first_stays { OnErr result (first.new.value.rows.items ≡ first.old.value.rows.items) }
    ensures second_stays { OnErr result (second.new.value.rows.items ≡ second.old.value.rows.items) }
{
    let first = Rc::make_mut(first)?;
    let second = Rc::make_mut(second)?;
    replace_row(&mut first.rows, row);
    drop_row(&mut second.rows, other);
    Ok(())
}

/// Drops a row from each of two tables, or from none where memory is short.
pub(crate) fn drop_both<S: Row, T: Row>(
    first: &mut Rc<Table<S>>,
    second: &mut Rc<Table<T>>,
    key: &S::Key,
    other: &T::Key,
) -> Result<(), Memory>
    requires first { Ascend S.order S.key_of first.old.value.rows.items }
    requires second { Ascend T.order T.key_of second.old.value.rows.items }
    ensures first { OnOk result (first.new.value.rows.items ≡ without_key S.same S.key_of key.now first.old.value.rows.items) }
    ensures second { OnOk result (second.new.value.rows.items ≡ without_key T.same T.key_of other.now second.old.value.rows.items) }
    ensures first_stays { OnErr result (first.new.value.rows.items ≡ first.old.value.rows.items) }
    ensures second_stays { OnErr result (second.new.value.rows.items ≡ second.old.value.rows.items) }
{
    let first = Rc::make_mut(first)?;
    let second = Rc::make_mut(second)?;
    drop_row(&mut first.rows, key);
    drop_row(&mut second.rows, other);
    Ok(())
}
