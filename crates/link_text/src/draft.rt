use acts::Entry;
use tg_text::{Items, LinkName, PublicKey};

/// A link before it is signed.
#[derive(Debug, Drop)]
pub struct Draft {
    pub team: Option<LinkName>,
    pub prev: Items<LinkName>,
    pub key: PublicKey,
    pub entry: Entry,
}
