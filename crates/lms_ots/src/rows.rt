ghost use Rattle.lms_ots.specs.Rows.{CoefRows, ChecksumRows, LengthRows};

/// Computes nothing: its contract has worked values of the definitions, which the check computes.
pub fn worked_values()
    ensures digits { CoefRows }
    ensures checksums { ChecksumRows }
    ensures lengths { LengthRows }
{}
