ghost use Rattle.std.specs.Prelude.{◌≡◌, ◌-◌, ◌++◌, ◌<◌, ◌≤◌, [], ◌∷◌, All, IfOk, length, OnErr, OnOk, slice_index_or, take};
ghost use Rattle.tg_text.specs.Limits.{most_links};
ghost use Rattle.ancestry.specs.Positions.{are_beside, comes_before, has_all_before, height_of, past_of};

use crate::row::{Row, height_at, is_among, next_height, next_past, past_at};
use std::alloc::Global;
use std::marker::Model;
use tg_text::{Items, Memory};

/// Positions with their ancestors. Contracts see the list of the parents of each.
#[derive(Drop)]
pub struct Ancestry {
    alloc: Global,
    rows: Vec<Row>,
}

impl Model for Ancestry {
    ghost use Rattle.ancestry.specs.Positions.{Parents};
    ghost use Rattle.ancestry.specs.Rows.{AreRows, parents_of};

    ghost Value = { Parents };

    ghost view = { λ it. parents_of it.rows.items };

    ghost invariant = { λ it. AreRows it.rows.items };
}

impl Ancestry {
    /// No positions. The allocator is kept for those to come.
    pub fn new(alloc: Global) -> Ancestry
        ensures { result ≡ [] }
    {
        Ancestry {
            alloc,
            rows: Vec::new(alloc),
        }
    }

    /// How many positions there are.
    pub fn len(&self) -> usize
        ensures { result ≡ length self.now }
    {
        self.rows.len()
    }

    /// Adds a position after its parents, and answers it. Its parents may stand in any order.
    ///
    /// Where memory is short all is as before.
    pub fn add(&mut self, parents: &[u32]) -> Result<u32, Memory>
        requires given { All (λ p. p < length self.old) parents.now }
        requires few { length self.old < most_links }
        ensures position { IfOk result (λ position. position ≡ length self.old) }
        ensures ok { OnOk result (self.new ≡ self.old ++ parents.now ∷ []) }
        ensures err { OnErr result (self.new ≡ self.old) }
    {
        let position = self.rows.len() as u32;
        let row = self.next_row(parents)?;
        self.rows.push(row)?;
        Ok(position)
    }

    fn next_row(&self, parents: &[u32]) -> Result<Row, Memory>
        requires given { All (λ p. p < length self.now) parents.now }
        ensures parents { IfOk result (λ row. row.parents ≡ parents.now) }
        ensures past { IfOk result (λ row. row.past ≡ past_of (self.now ++ parents.now ∷ []) (length self.now)) }
        ensures height { IfOk result (λ row. row.height ≡ height_of (self.now ++ parents.now ∷ []) (length self.now)) }
        ensures low { IfOk result (λ row. row.height ≤ length self.now) }
    {
        let past = next_past(self.alloc, &self.rows, parents)?;
        let height = next_height(&self.rows, parents);
        let parents = Items::from_vec(Vec::from_slice(self.alloc, parents)?);
        Ok(Row {
            parents,
            past,
            height,
        })
    }

    /// The parents of a position, as they were given.
    pub fn parents(&self, position: u32) -> &[u32]
        requires given { position < length self.now }
        ensures { result.now ≡ slice_index_or self.now position [] }
    {
        self.rows[position as usize].parents.as_slice()
    }

    /// Whether `a` is an ancestor of `b`. It takes no memory.
    pub fn before(&self, a: u32, b: u32) -> bool
        requires given_a { a < length self.now }
        requires given_b { b < length self.now }
        ensures { result ≡ comes_before self.now a b }
    {
        is_among(past_at(&self.rows, b), a)
    }

    /// Whether two positions differ, and neither is an ancestor of the other. It takes no memory.
    pub fn concurrent(&self, a: u32, b: u32) -> bool
        requires given_a { a < length self.now }
        requires given_b { b < length self.now }
        ensures { result ≡ are_beside self.now a b }
    {
        a != b && !self.before(a, b) && !self.before(b, a)
    }

    /// The ancestors of a position, which ascend.
    pub fn past(&self, position: u32) -> Result<Vec<u32>, Memory>
        requires given { position < length self.now }
        ensures { IfOk result (λ past. past.items ≡ past_of self.now position) }
    {
        let past = Vec::from_slice(self.alloc, past_at(&self.rows, position))?;
        Ok(past)
    }

    /// Whether every other position is an ancestor of this one. It takes no memory.
    pub fn is_all_past(&self, position: u32) -> bool
        requires given { position < length self.now }
        ensures { result ≡ has_all_before self.now position }
    {
        past_at(&self.rows, position).len() + 1 == self.rows.len()
    }

    /// One more than the greatest height of a parent, and 0 without parents. It takes no memory.
    pub fn height(&self, position: u32) -> u32
        requires given { position < length self.now }
        ensures { result ≡ height_of self.now position }
    {
        height_at(&self.rows, position)
    }

    /// Keeps the first positions. It takes no memory.
    pub fn truncate(&mut self, len: usize)
        ensures { self.new ≡ take len self.old }
    {
        self.rows.truncate(len);
    }

    /// Takes the last position away. It takes no memory.
    pub fn drop_last(&mut self)
        requires some { 0 < length self.old }
        ensures { self.new ≡ take (length self.old - 1) self.old }
    {
        let len = self.rows.len() - 1;
        self.truncate(len);
    }
}
