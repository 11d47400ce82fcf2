use link_graph::{Graph, Took};

/// Takes a text and lets it go again, and answers whether it was new.
pub fn take_and_undo(graph: &mut Graph, text: &[u8]) -> bool {
    let before = graph.connected();
    match graph.take(text) {
        Ok(Took::New { .. }) => {
            graph.undo(before);
            true
        }
        Ok(Took::Waiting) => {
            graph.undo(before);
            true
        }
        _ => false,
    }
}
