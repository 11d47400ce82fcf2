//! Laws on taint, lacks and debts. The functions do nothing.
ghost use Rattle.std.specs.Prelude.{List};
ghost use Rattle.key_laws.specs.DebtLaws.{BoxedLackNothing, NoLackNoDebt};
ghost use Rattle.key_laws.specs.ReachLaws.{ReachedIsHead, UnreachedAddNothing};
ghost use Rattle.key_laws.specs.TaintLaws.{CleanRecipientsKeepTaint, DeviceKeysAreClean, FreshKeysAreClean, TaintIsBlindToOtherKeys, TaintedUsersLeadToBoxes};

/// Arrows whose tails aren't reached add nothing to what is reached.
pub fn unreached_add_nothing<T>()
    ensures { (arrows more : List (T × T)) (given : List T) → UnreachedAddNothing arrows more given }
{}

/// What is reached is given, or is the head of an arrow whose tail is reached.
pub fn reached_is_head<T>()
    ensures { (arrows : List (T × T)) (given : List T) → ReachedIsHead arrows given }
{}

/// Of the current keys, taint looks at those of devices alone.
pub fn taint_is_blind_to_other_keys()
    ensures { TaintIsBlindToOtherKeys }
{}

/// New boxes with allowed arrows and clean recipients leave each key tainted or clean as it was.
pub fn clean_recipients_keep_taint()
    ensures { CleanRecipientsKeepTaint }
{}

/// A key that isn't a device's and that no box has as its content is clean.
pub fn fresh_keys_are_clean()
    ensures { FreshKeysAreClean }
{}

/// Where no box has a device's key, the keys of live devices are clean.
pub fn device_keys_are_clean()
    ensures { DeviceKeysAreClean }
{}

/// Where users' keys stand in boxes to devices alone, a tainted key of a user is the content of a box that isn't allowed.
pub fn tainted_users_lead_to_boxes()
    ensures { TaintedUsersLeadToBoxes }
{}

/// Where each pair that lacked a box has one, and taint is as before, nothing lacks.
pub fn boxed_lack_nothing()
    ensures { BoxedLackNothing }
{}

/// Where each live scope has a clean key and no box lacks, nothing is owed.
pub fn no_lack_no_debt()
    ensures { NoLackNoDebt }
{}
