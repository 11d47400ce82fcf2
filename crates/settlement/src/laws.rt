ghost use Rattle.std.specs.Prelude.{Bool};
ghost use Rattle.settlement.specs.Examples.{RingRow};
ghost use Rattle.settlement.specs.RankLaws.{RankIsBySeniority, RanksAreStrict};
ghost use Rattle.settlement.specs.SeniorLaws.{StandsUnlessTakenOut};

/// A rank is smaller by the seniority of the act's user, and where users are as senior, by the act's own place.
pub fn rank_is_by_seniority()
    ensures { RankIsBySeniority }
{}

/// Ranks are a strict order, and tell apart acts whose places differ.
pub fn ranks_are_strict()
    ensures { RanksAreStrict }
{}

/// An act stands unless a more senior one, which stands itself, takes it out.
pub fn stands_unless_taken_out<T>()
    ensures { (senior strikes : T → T → Bool) → StandsUnlessTakenOut senior strikes }
{}

/// Three acts in a ring of strikes, with two ways of seniority.
pub fn worked_settlement()
    ensures { RingRow }
{}
