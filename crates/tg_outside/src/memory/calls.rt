ghost use Rattle.std.specs.Prelude.{◌≡◌, ◌≤◌, IsTrue};
ghost use Rattle.tg_outside.specs.Causes.{Rose};

// The calls that were made, counted from 0, which of them are to fail, and how many did.
#[derive(Debug, Drop)]
pub struct Calls {
    failing: Vec<u64>,
    made: u64,
    pub faults: u64,
}

impl Calls {
    pub fn new(failing: Vec<u64>) -> Calls
        ensures { result.faults ≡ 0 }
    {
        Calls {
            failing,
            made: 0,
            faults: 0,
        }
    }

    // Whether the call that is made now is to fail. It is counted, and so is its fault.
    pub fn next_fails(&mut self) -> bool
        ensures later { self.old.faults ≤ self.new.faults }
        ensures rose { IsTrue result → Rose self.old.faults self.new.faults }
    {
        let fails = self.failing.contains(&self.made);
        self.made = self.made.saturating_add(1);
        if fails {
            self.count_fault();
        }
        fails
    }

    pub fn count_fault(&mut self)
        ensures later { self.old.faults ≤ self.new.faults }
        ensures rose { Rose self.old.faults self.new.faults }
    {
        self.faults = self.faults.saturating_add(1);
    }
}
