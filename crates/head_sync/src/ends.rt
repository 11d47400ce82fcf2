use tg_text::{Items, LinkName};

/// The heads with which the two ends said that they are done, as far as they did.
#[derive(Debug, Drop)]
pub struct Ends {
    /// The heads of the Done that was sent: those of the keeper when it was.
    pub sent: Option<Items<LinkName>>,
    /// The heads of the Done that was heard.
    pub heard: Option<Items<LinkName>>,
}
