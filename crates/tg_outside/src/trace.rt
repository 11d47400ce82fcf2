// Bytes that contracts alone see. They take no memory when the program runs.
ghost use Rattle.std.specs.Prelude.{◌≡◌, ◌++◌, ℕ, List, [], ◌∷◌};

use std::marker::{Model, PhantomData};

#[derive(Drop)]
pub struct Trace {
    marker: PhantomData<()>,
    pub ghost bytes: { List ℕ },
}

impl Model for Trace {
    ghost use base.Fml.{ftrue};

    ghost also_owns = { λ _. ftrue };
}

pub fn blank() -> Trace
    ensures { result.bytes ≡ [] }
{
    Trace {
        marker: PhantomData,
    }
}

pub fn note(trace: &mut Trace, byte: u8)
    ensures { trace.new.bytes ≡ trace.old.bytes ++ byte ∷ [] }
{}
