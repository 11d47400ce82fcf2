use team_model::Verdict;
use team_state::TeamState;
use tg_text::Items;

/// The team of the held links, and what became of each. Positions are those of the graph. Links that wait for a parent have none,
/// and no effect on the team.
#[derive(Debug, Drop)]
pub struct View {
    pub state: TeamState,
    /// The positions of the resolved list: of the lawful links that no removal strikes, in the order of the team.
    pub resolved: Items<u32>,
    /// What became of the link of each position.
    pub verdicts: Items<Verdict>,
}
