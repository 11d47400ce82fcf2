ghost use Rattle.std.specs.Prelude.{◌≡◌, ◌↔◌, Bool, List, ℕ, true};
ghost use Rattle.team_sets.specs.AncestryLaws.{AncestorsAreParentsAndTheirs, AncestryIsTransitive, HeightIsOfParents, OrderOfPast, PastOfPast};
ghost use Rattle.team_sets.specs.ArrivalLaws.{AllConnected, ArrivedExtends, ArrivedIsOrdered, ConnectsNext, LeastIsByName, NextAfter, StaysConnected};
ghost use Rattle.team_sets.specs.Closure.{closure, has, Reaches};
ghost use Rattle.team_sets.specs.Connected.{OrderIsConnected};
ghost use Rattle.team_sets.specs.Examples.{ArrivalRow, DiamondRow, InsertionRow, OrderRow, RingRow, WideRow};
ghost use Rattle.team_sets.specs.InsertionLaws.{InsertionInTurn, InsertionIsOrder};
ghost use Rattle.team_sets.specs.OrderLaws.{IsSet, NamesDiffer, OrderIsChosen, OrderIsLeast, OrderIsOfSet};
ghost use Rattle.team_sets.specs.PartLaws.{OrderOfPart};
ghost use Rattle.team_sets.specs.PastLaws.{PastIsShorter, PastStays};
ghost use Rattle.team_sets.specs.SameLaws.{GraphIsOfSet};
ghost use Rattle.team_sets.specs.SettlementLaws.{PartStandsAlone, SettlementIsOfRanks, StandingIsOnePass, StandsAsDecided};
ghost use Rattle.team_sets.specs.SortedLaws.{AscendingIsOfSet, AscendingIsOne, AscendingSorts, NamesSort};
ghost use Rattle.team_sets.specs.WaitingLaws.{ConnectedIsOfOrder, WaitingChangesNothing};

/// Where no name stands twice, links with one name are one link.
pub fn distinct_names<T>()
    ensures { (name : T → List ℕ) (links : List T) → IsSet name links → NamesDiffer name links }
{}

/// The order is the list of the connected links, parents first, whose list of names is least.
pub fn order_is_least<T>()
    ensures { (name : T → List ℕ) (prev : T → List (List ℕ)) (links : List T) → NamesDiffer name links → OrderIsLeast name prev links }
{}

/// The order has exactly the connected links.
pub fn order_is_connected<T>()
    ensures { (name : T → List ℕ) (prev : T → List (List ℕ)) (links : List T) → NamesDiffer name links → OrderIsConnected name prev links }
{}

/// The order depends on which links are in the set alone.
pub fn order_is_of_set<T>()
    ensures { (name : T → List ℕ) (prev : T → List (List ℕ)) → OrderIsOfSet name prev }
{}

/// The order is the one list in which each is the least that may stand next, and behind which none is left.
pub fn chosen_is_order<T>()
    ensures { (name : T → List ℕ) (prev : T → List (List ℕ)) → OrderIsChosen name prev }
{}

/// The order of a part that has the parents of each of its links is the order of the set, with that part alone.
pub fn order_of_part<T>()
    ensures { (name : T → List ℕ) (prev : T → List (List ℕ)) → OrderOfPart name prev }
{}

/// The least of a list is told by its name, and depends on the members alone.
pub fn least_is_by_name<T>()
    ensures { (name : T → List ℕ) (links : List T) → NamesDiffer name links → LeastIsByName name links }
{}

/// One link follows at a time: the least by name of those that may stand next, and then those behind it.
pub fn connects_next<T>()
    ensures { (name : T → List ℕ) (prev : T → List (List ℕ)) (links placed : List T) → ConnectsNext name prev links placed }
{}

/// Once a link is placed, those that may stand next could before, or are its children.
pub fn next_after<T>()
    ensures { (name : T → List ℕ) (prev : T → List (List ℕ)) (placed : List T) (y z : T) → NextAfter name prev placed y z }
{}

/// Where none may stand next and a link comes, it alone may, or none; and behind it only its children.
pub fn stays_connected<T>()
    ensures { (name : T → List ℕ) (prev : T → List (List ℕ)) (links placed : List T) (x : T)
        → AllConnected name prev links placed → StaysConnected name prev links placed x }
{}

/// What connects when a link comes follows what had connected.
pub fn arrived_extends<T>()
    ensures { (name : T → List ℕ) (prev : T → List (List ℕ)) (links : List T) (x : T) → ArrivedExtends name prev links x }
{}

/// The links that connected are those of the order, each once and behind its parents.
pub fn arrived_is_ordered<T>()
    ensures { (name : T → List ℕ) (prev : T → List (List ℕ)) (links : List T) → IsSet name links → ArrivedIsOrdered name prev links }
{}

/// Where all links are connected and one comes behind them, the order is the old one with the link put in.
pub fn insertion_is_order<T>()
    ensures { (name : T → List ℕ) (prev : T → List (List ℕ)) → InsertionIsOrder name prev }
{}

/// The same for links that connect one by one.
pub fn insertion_in_turn<T>()
    ensures { (name : T → List ℕ) (prev : T → List (List ℕ)) → InsertionInTurn name prev }
{}

/// The past of a connected link has fewer links than the set.
pub fn past_is_shorter<T>()
    ensures { (name : T → List ℕ) (prev : T → List (List ℕ)) → PastIsShorter name prev }
{}

/// The past of a connected link stays when another link comes.
pub fn past_stays<T>()
    ensures { (name : T → List ℕ) (prev : T → List (List ℕ)) → PastStays name prev }
{}

/// The ancestors of a connected link are its parents, and theirs.
pub fn ancestors_are_parents_and_theirs<T>()
    ensures { (name : T → List ℕ) (prev : T → List (List ℕ)) → AncestorsAreParentsAndTheirs name prev }
{}

/// An ancestor's ancestor is an ancestor.
pub fn ancestry_is_transitive<T>()
    ensures { (name : T → List ℕ) (prev : T → List (List ℕ)) → AncestryIsTransitive name prev }
{}

/// The order of a connected link's past is the order of the set, with its ancestors alone.
pub fn order_of_past<T>()
    ensures { (name : T → List ℕ) (prev : T → List (List ℕ)) → OrderOfPast name prev }
{}

/// An ancestor has the same past in the past of a connected link as in the set.
pub fn past_of_past<T>()
    ensures { (name : T → List ℕ) (prev : T → List (List ℕ)) → PastOfPast name prev }
{}

/// The height of a connected link is 0 without parents, and else one more than the greatest height of a parent.
pub fn height_is_of_parents<T>()
    ensures { (name : T → List ℕ) (prev : T → List (List ℕ)) → HeightIsOfParents name prev }
{}

/// What a set says of its connected links depends on its order alone.
pub fn connected_is_of_order<T>()
    ensures { (name : T → List ℕ) (prev : T → List (List ℕ)) → ConnectedIsOfOrder name prev }
{}

/// Links that wait have no effect on those that are connected.
pub fn waiting_changes_nothing<T>()
    ensures { (name : T → List ℕ) (prev : T → List (List ℕ)) → WaitingChangesNothing name prev }
{}

/// The number of links, their ancestors, pasts and heights depend on which links are in the set alone.
pub fn graph_is_of_set<T>()
    ensures { (name : T → List ℕ) (prev : T → List (List ℕ)) → GraphIsOfSet name prev }
{}

/// Sorting gives a list that ascends, of the same members.
pub fn ascending_sorts<T>()
    ensures { (before : T → T → Bool) → AscendingSorts before }
{}

/// Two lists that ascend and have the same members are one.
pub fn ascending_is_one<T>()
    ensures { (before : T → T → Bool) → AscendingIsOne before }
{}

/// The sorted list depends on the members alone.
pub fn ascending_is_of_set<T>()
    ensures { (before : T → T → Bool) → AscendingIsOfSet before }
{}

/// Names sort the links of a set.
pub fn names_sort<T>()
    ensures { (name : T → List ℕ) (links : List T) → NamesSort name links }
{}

/// Settlement is one pass over the acts in order of seniority.
pub fn standing_is_one_pass<T>()
    ensures { (senior strikes : T → T → Bool) → StandingIsOnePass senior strikes }
{}

/// No two standing acts have a strike with each other, and an act stands exactly where its decision says so.
pub fn stands_as_decided<T>()
    ensures { (senior strikes : T → T → Bool) (acts : List T) → StandsAsDecided senior strikes acts }
{}

/// Settlement depends on the ranks of the acts and the strikes between them alone.
pub fn settlement_is_of_ranks<T>()
    ensures { (senior strikes other_senior other_strikes : T → T → Bool) → SettlementIsOfRanks senior strikes other_senior other_strikes }
{}

/// Acts that have no strike with the others are settled alone.
pub fn part_stands_alone<T>()
    ensures { (senior strikes : T → T → Bool) → PartStandsAlone senior strikes }
{}

/// The closure has exactly what is reached, where the test decides equality.
pub fn closure_is_reach<T>()
    ensures { (same : T → T → Bool) → ((x y : T) → (same x y ≡ true) ↔ (x ≡ y)) → (arrows : List (T × T)) (given : List T) (x : T)
        → (has same (closure same arrows given) x ≡ true) ↔ Reaches arrows given x }
{}

/// A root, two branches of two links: by names, parents first.
pub fn worked_order()
    ensures { OrderRow }
{}

/// The same links put in one by one, in three ways; and in the order in which they connect where children come first.
pub fn worked_insertion()
    ensures inserted { InsertionRow }
    ensures arrived { ArrivalRow }
{}

/// A diamond of four links: ancestors, concurrency and height.
pub fn worked_past()
    ensures { DiamondRow }
{}

/// Three acts in a ring of strikes, and four acts of which the most senior is struck by a junior one.
pub fn worked_settlement()
    ensures ring { RingRow }
    ensures wide { WideRow }
{}
