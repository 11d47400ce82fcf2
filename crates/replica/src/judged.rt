use team_model::Reason;

/// What was found of the links of the first positions, once and for all: why each is unlawful, if it is, which lawful ones strike, and
/// which of them strike which. A pair says that the link of the first position strikes that of the second.
#[derive(Debug, Drop)]
pub(crate) struct Judged {
    pub(crate) reasons: Vec<Option<Reason>>,
    pub(crate) strikers: Vec<u32>,
    pub(crate) strikes: Vec<(u32, u32)>,
}
