ghost use Rattle.std.specs.Prelude.{◌≡◌, ◌<◌, ◌≤◌, ◌&&◌, ℕ, not, [], false, length, fold, OnErr, OnOk, IfOk, slice_index_or};
ghost use Rattle.std.specs.List.{All};
ghost use Rattle.key_reach.specs.Numbers.{added, has_number};

use std::alloc::Global;
use std::marker::Model;
use tg_text::Memory;

// A set of numbers below a size, with its members in the order in which they came.
#[derive(Drop)]
pub(crate) struct NumberSet {
    marks: Vec<bool>,
    members: Vec<usize>,
}

impl Model for NumberSet {
    ghost use Rattle.std.specs.Prelude.{length};
    ghost use Rattle.key_reach.specs.Numbers.{IsMarked, Numbers};

    ghost Value = { Numbers };

    ghost view = { λ it. record { size = length it.marks.items; members = it.members.items } };

    ghost invariant = { λ it. IsMarked it.marks.items it.members.items };
}

impl NumberSet {
    // No number, of those below the size.
    pub(crate) fn new(alloc: Global, size: usize) -> Result<NumberSet, Memory>
        ensures { IfOk result (λ set. set ≡ record { size = size; members = [] }) }
    {
        Ok(NumberSet {
            marks: vec![in alloc; false; size]?,
            members: Vec::new(alloc),
        })
    }

    pub(crate) fn contains(&self, number: usize) -> bool
        requires { number < self.now.size }
        ensures { result ≡ has_number self.now.members number }
    {
        self.marks[number]
    }

    // How many members there are.
    pub(crate) fn len(&self) -> usize
        ensures len { result ≡ length self.now.members }
        ensures within { result ≤ self.now.size }
    {
        self.members.as_slice().len()
    }

    // The members, in the order in which they came.
    pub(crate) fn as_slice(&self) -> &[usize]
        ensures members { result.now ≡ self.now.members }
        ensures within { All (λ n. n < self.now.size) result.now }
    {
        self.members.as_slice()
    }

    pub(crate) fn add(&mut self, number: usize) -> Result<(), Memory>
        requires { number < self.old.size }
        ensures ok { OnOk result (self.new ≡ record { size = self.old.size; members = added self.old.members number }) }
        ensures err { OnErr result (self.new ≡ self.old) }
    {
        if self.contains(number) {
            return Ok(());
        }
        self.members.push(number)?;
        self.marks[number] = true;
        Ok(())
    }

    pub(crate) fn add_all(&mut self, numbers: &[usize]) -> Result<(), Memory>
        requires { All (λ n. n < self.old.size) numbers.now }
        ensures size { self.new.size ≡ self.old.size }
        ensures added { OnOk result (self.new.members ≡ fold added self.old.members numbers.now) }
    {
        for number in numbers {
            self.add(*number)?;
        }
        Ok(())
    }

    // Takes all members out.
    pub(crate) fn clear(&mut self)
        ensures { self.new ≡ record { size = self.old.size; members = [] } }
    {
        unmark(&mut self.marks, self.members.as_slice());
        self.members.clear();
    }
}

fn unmark(marks: &mut Vec<bool>, members: &[usize])
    requires { All (λ n. n < length marks.old.items) members.now }
    ensures size { length marks.new.items ≡ length marks.old.items }
    ensures marks { (i : ℕ) → slice_index_or marks.new.items i false ≡ (slice_index_or marks.old.items i false && not (has_number members.now i)) }
{
    for number in members {
        marks[*number] = false;
    }
}
