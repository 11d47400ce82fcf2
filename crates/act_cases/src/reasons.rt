use team_reducer::Reason;

/// The word of a verdict: a reason's, or `permitted`.
pub fn word_of(refused: Option<Reason>) -> &'static str {
    match refused {
        None => "permitted",
        Some(Reason::NotListed) => "NotListed",
        Some(Reason::NotAdmin) => "NotAdmin",
        Some(Reason::NotYours) => "NotYours",
        Some(Reason::Present) => "Present",
        Some(Reason::Absent) => "Absent",
        Some(Reason::LastAdmin) => "LastAdmin",
        Some(Reason::LastDevice) => "LastDevice",
        Some(Reason::WasRemoved) => "WasRemoved",
        Some(Reason::NoInvite) => "NoInvite",
        Some(Reason::Spent) => "Spent",
        Some(Reason::Expired) => "Expired",
        Some(Reason::TooMany) => "TooMany",
        Some(Reason::Reserved) => "Reserved",
        Some(Reason::NotEmpty) => "NotEmpty",
    }
}
