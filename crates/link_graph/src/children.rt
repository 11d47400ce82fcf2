//! Which held links name a parent, whether that is held or not. What is here depends on the held links alone, and not on which of
//! them are connected.
ghost use Rattle.std.specs.Prelude.{◌≡◌, ℕ, List, [], ◌∷◌, ◌++◌, ◌-◌, length, take, if◌then◌else◌, IfOk, OnOk, OnErr};
ghost use Rattle.team_sets.specs.Names.{same_name};
ghost use Rattle.link_graph.specs.Children.{children_of, named};

use std::alloc::Global;
use std::collections::HashMap;
use tg_text::{LinkName, Memory};

/// For each name, the places of the links that have it among their parents.
#[derive(Drop)]
pub(crate) struct Children {
    pub(crate) lists: HashMap<LinkName, Vec<u32>>,
}

fn push_place(list: &mut Vec<u32>, place: u32) -> Result<(), Memory>
    ensures ok { OnOk result (list.new.items ≡ list.old.items ++ place ∷ []) }
    ensures err { OnErr result (list.new.items ≡ list.old.items) }
{
    list.push(place)?;
    Ok(())
}

fn one_place(alloc: Global, place: u32) -> Result<Vec<u32>, Memory>
    ensures { IfOk result (λ list. list.items ≡ place ∷ []) }
{
    let mut list = Vec::new(alloc);
    list.push(place)?;
    Ok(list)
}

impl Children {
    pub(crate) fn new(alloc: Global) -> Children
        ensures { (n : List ℕ) → children_of result.lists n ≡ [] }
    {
        Children {
            lists: HashMap::new(alloc),
        }
    }

    /// The places of the children of a name.
    pub(crate) fn of(&self, name: &LinkName) -> &[u32]
        ensures { result.now ≡ children_of self.now.lists name.now }
    {
        match self.lists.get(name) {
            Some(list) => list.as_slice(),
            None => &[],
        }
    }

    fn add_child(&mut self, alloc: Global, parent: &LinkName, place: u32) -> Result<(), Memory>
        ensures ok { OnOk result ((n : List ℕ) → children_of self.new.lists n ≡ children_of self.old.lists n ++ (if same_name parent.now n then place ∷ [] else [])) }
        ensures err { OnErr result ((n : List ℕ) → children_of self.new.lists n ≡ children_of self.old.lists n) }
    {
        match self.lists.get_mut(parent) {
            Some(list) => push_place(list, place),
            None => {
                let list = one_place(alloc, place)?;
                self.lists.insert(*parent, list)?;
                Ok(())
            }
        }
    }

    fn remove_child(&mut self, parent: &LinkName)
        ensures { (n : List ℕ) → children_of self.new.lists n ≡ (if same_name parent.now n then take (length (children_of self.old.lists n) - 1) (children_of self.old.lists n) else children_of self.old.lists n) }
    {
        if let Some(list) = self.lists.get_mut(parent) {
            let _ = list.pop();
        }
    }

    /// Adds the link at a place as a child of each of its parents.
    pub(crate) fn add(
        &mut self,
        alloc: Global,
        parents: &[LinkName],
        place: u32,
    ) -> Result<(), Memory>
        ensures ok { OnOk result ((n : List ℕ) → children_of self.new.lists n ≡ children_of self.old.lists n ++ named place parents.now n) }
        ensures err { OnErr result ((n : List ℕ) → children_of self.new.lists n ≡ children_of self.old.lists n) }
    {
        for (i, parent) in parents.iter().enumerate() {
            if let Err(memory) = self.add_child(alloc, parent, place) {
                self.remove(&parents[..i]);
                return Err(memory);
            }
        }
        Ok(())
    }

    /// Takes away the child that came last from each of its parents.
    pub(crate) fn remove(&mut self, parents: &[LinkName])
        ensures { (before : List ℕ → List ℕ) (place : ℕ) → ((n : List ℕ) → children_of self.old.lists n ≡ before n ++ named place parents.now n) → (n : List ℕ) → children_of self.new.lists n ≡ before n }
    {
        for parent in parents {
            self.remove_child(parent);
        }
    }
}
