//! Laws on taint, lacks and debts over any tables of keys: what leaves taint as it was, and when nothing is owed.
//!
//! The statements stand in `specs/`. Whoever shows that key lines leave a team without debts stands on them.
#![tactic(auto)]

mod laws;

pub use laws::{
    boxed_lack_nothing, clean_recipients_keep_taint, device_keys_are_clean, fresh_keys_are_clean,
    no_lack_no_debt, reached_is_head, taint_is_blind_to_other_keys, tainted_users_lead_to_boxes,
    unreached_add_nothing,
};
