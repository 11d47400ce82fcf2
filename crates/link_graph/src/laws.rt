ghost use Rattle.link_graph.specs.Parentage.{PositionsStandAsLinks};
ghost use Rattle.link_graph.specs.Waiting.{WaitsForParents, WaitsWhereUnconnected};

/// A link that is taken waits exactly where it isn't connected, which is where one of its parents isn't.
pub fn waits_where_unconnected()
    ensures unconnected { WaitsWhereUnconnected }
    ensures parents { WaitsForParents }
{}

/// Positions stand to each other as the links that have them: what is before what, what is beside what, and heights.
pub fn positions_stand_as_links()
    ensures { PositionsStandAsLinks }
{}
