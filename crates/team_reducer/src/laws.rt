ghost use Rattle.team_reducer.specs.ActLaws.{ByListed, OnlyBroughtIn, RefusedStays};
ghost use Rattle.team_reducer.specs.Sound.{StatesAreManned, StatesAreSound, TeamsAreManned, TeamsAreSound};

/// Whatever entries come, in whatever order: the state that they make from the empty one is sound. So it is empty or has an admin
/// with a listed device, and every listed user has one.
pub fn states_are_sound()
    ensures sound { StatesAreSound }
    ensures manned { StatesAreManned }
{}

/// The team of a set of links is sound, whichever they are and in whatever order. So it is empty or has an admin with a listed
/// device, and every listed user has one.
pub fn teams_are_sound()
    ensures sound { TeamsAreSound }
    ensures manned { TeamsAreManned }
{}

/// What the rules of acts owe to those who judge links by them: a refused entry changes nothing, a permitted one is by a listed
/// user or founds the team, and nobody is listed by it but whom it brings in.
pub fn rules_are_lawful()
    ensures refused { RefusedStays }
    ensures authors { ByListed }
    ensures users { OnlyBroughtIn }
{}
