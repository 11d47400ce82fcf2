//! Where the boxes to a key stand.
ghost use Rattle.std.specs.Prelude.{◌≡◌, true, [], ◌∷◌, ◌++◌, if◌then◌else◌, IfOk, OnOk};
ghost use Rattle.lockboxes.specs.Indexes.{places_in, places_of};

use std::alloc::Global;
use std::collections::HashMap;
use std::hash::Hash;
use tg_text::Memory;

// For each value of a list, its places there.
#[derive(Drop)]
pub(crate) struct Places<K: Eq + Hash> {
    pub(crate) lists: HashMap<K, Vec<usize>>,
}

// The places of the values of a list.
pub(crate) fn index<K: Eq + Hash + Copy>(alloc: Global, values: &[K]) -> Result<Places<K>, Memory>
    requires { (x y : K) → K.eq x y ≡ true → x ≡ y }
    ensures { IfOk result (λ places. (k : K) → places_of K.eq places.lists k ≡ places_in K.eq 0 values.now k) }
{
    let mut places = Places {
        lists: HashMap::new(alloc),
    };
    for (place, value) in values.iter().enumerate() {
        add_place(alloc, &mut places, value, place)?;
    }
    Ok(places)
}

impl<K: Eq + Hash> Places<K> {
    // The places of a value, in order.
    pub(crate) fn of(&self, value: &K) -> &[usize]
        ensures { result.now ≡ places_of K.eq self.now.lists value.now }
    {
        match self.lists.get(value) {
            Some(list) => list.as_slice(),
            None => &[],
        }
    }
}

fn add_place<K: Eq + Hash + Copy>(
    alloc: Global,
    places: &mut Places<K>,
    value: &K,
    place: usize,
) -> Result<(), Memory>
    requires { (x y : K) → K.eq x y ≡ true → x ≡ y }
    ensures { OnOk result ((k : K) → places_of K.eq places.new.lists k ≡ places_of K.eq places.old.lists k ++ (if K.eq value.now k then place ∷ [] else [])) }
{
    match places.lists.get_mut(value) {
        Some(list) => push_place(list, place),
        None => {
            let list = one_place(alloc, place)?;
            places.lists.insert(*value, list)?;
            Ok(())
        }
    }
}

fn push_place(list: &mut Vec<usize>, place: usize) -> Result<(), Memory>
    ensures { OnOk result (list.new.items ≡ list.old.items ++ place ∷ []) }
{
    list.push(place)?;
    Ok(())
}

fn one_place(alloc: Global, place: usize) -> Result<Vec<usize>, Memory>
    ensures { IfOk result (λ list. list.items ≡ place ∷ []) }
{
    let mut list = Vec::new(alloc);
    list.push(place)?;
    Ok(list)
}
