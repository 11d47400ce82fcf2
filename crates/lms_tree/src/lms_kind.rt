ghost use Rattle.std.specs.Prelude.{◌≡◌};
ghost use Rattle.lms_tree.specs.LmsKinds.{lms_row, lms_kind, lms_length, leaves_of};

use lms_ots::OtsKind;

/// A type of LMS trees with SHA-256 and m = 32 (RFC 8554 section 5.1), named by the height.
#[derive(Clone, Copy, Debug, PartialEq, Eq)]
pub enum LmsKind {
    /// Type 5, LMS_SHA256_M32_H5.
    H5,
    /// Type 6, LMS_SHA256_M32_H10.
    H10,
    /// Type 7, LMS_SHA256_M32_H15.
    H15,
    /// Type 8, LMS_SHA256_M32_H20.
    H20,
    /// Type 9, LMS_SHA256_M32_H25.
    H25,
}

impl LmsKind {
    /// The kind of a type number: None exactly outside 5 to 9.
    pub fn of(number: u32) -> Option<LmsKind>
        ensures { result ≡ lms_kind number }
    {
        match number {
            5 => Some(LmsKind::H5),
            6 => Some(LmsKind::H10),
            7 => Some(LmsKind::H15),
            8 => Some(LmsKind::H20),
            9 => Some(LmsKind::H25),
            _ => None,
        }
    }

    /// The type number.
    pub fn number(self) -> u32
        ensures { result ≡ (lms_row self).number }
    {
        match self {
            LmsKind::H5 => 5,
            LmsKind::H10 => 6,
            LmsKind::H15 => 7,
            LmsKind::H20 => 8,
            LmsKind::H25 => 9,
        }
    }

    /// The height of the tree.
    pub fn height(self) -> usize
        ensures { result ≡ (lms_row self).h }
    {
        match self {
            LmsKind::H5 => 5,
            LmsKind::H10 => 10,
            LmsKind::H15 => 15,
            LmsKind::H20 => 20,
            LmsKind::H25 => 25,
        }
    }

    /// The number of leaves, each of which signs once.
    pub fn leaves(self) -> u32
        ensures { result ≡ leaves_of self }
    {
        match self {
            LmsKind::H5 => 32,
            LmsKind::H10 => 1024,
            LmsKind::H15 => 32768,
            LmsKind::H20 => 1048576,
            LmsKind::H25 => 33554432,
        }
    }

    /// The length of a signature with one-time signatures of this kind, in bytes.
    pub fn signature_length(self, ots: OtsKind) -> usize
        ensures { result ≡ lms_length self ots }
    {
        4 + ots.length() + 4 + 32 * self.height()
    }
}
