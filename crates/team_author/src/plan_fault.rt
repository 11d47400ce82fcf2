ghost use Rattle.std.specs.Prelude.{◌≡◌};
ghost use Rattle.team_author.specs.declared.plan_fault.PlanFault.TheVariants.{Memory as lacks_memory, NotPermitted as not_permitted};

use team_model::Reason;
use tg_text::Memory;

/// Why nothing is planned.
#[derive(Clone, Copy, Debug, PartialEq, Eq)]
pub enum PlanFault {
    /// The team has no room for a link, however short.
    Full,
    /// The act is refused in the team of its parents.
    NotPermitted(Reason),
    Memory,
}

impl From<Reason> for PlanFault {
    ghost from_gives = { λ reason e. e ≡ not_permitted reason };

    fn from(reason: Reason) -> Self {
        PlanFault::NotPermitted(reason)
    }
}

impl From<Memory> for PlanFault {
    ghost from_gives = { λ _ e. e ≡ lacks_memory };

    fn from(_: Memory) -> Self {
        PlanFault::Memory
    }
}
