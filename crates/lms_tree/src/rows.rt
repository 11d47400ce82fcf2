ghost use Rattle.lms_tree.specs.Rows.{SignatureRows, LeavesRows};

/// Computes nothing: its contract has worked values of the definitions, which the check computes.
pub fn worked_values()
    ensures lengths { SignatureRows }
    ensures leaves { LeavesRows }
{}
