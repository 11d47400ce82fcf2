ghost use Rattle.std.specs.Prelude.{◌≡◌, ◌-◌, ◌^◌};
ghost use Rattle.lms_ots.specs.Kinds.{ots_row, ots_kind, ots_length};

/// A type of LM-OTS signatures with SHA-256 and n = 32 (RFC 8554 section 4.1), named by the bits of a digit.
#[derive(Clone, Copy, Debug, PartialEq, Eq)]
pub enum OtsKind {
    /// Type 1, LMOTS_SHA256_N32_W1.
    W1,
    /// Type 2, LMOTS_SHA256_N32_W2.
    W2,
    /// Type 3, LMOTS_SHA256_N32_W4.
    W4,
    /// Type 4, LMOTS_SHA256_N32_W8.
    W8,
}

impl OtsKind {
    /// The kind of a type number: None exactly outside 1 to 4.
    pub fn of(number: u32) -> Option<OtsKind>
        ensures { result ≡ ots_kind number }
    {
        match number {
            1 => Some(OtsKind::W1),
            2 => Some(OtsKind::W2),
            3 => Some(OtsKind::W4),
            4 => Some(OtsKind::W8),
            _ => None,
        }
    }

    /// The type number.
    pub fn number(self) -> u32
        ensures { result ≡ (ots_row self).number }
    {
        match self {
            OtsKind::W1 => 1,
            OtsKind::W2 => 2,
            OtsKind::W4 => 3,
            OtsKind::W8 => 4,
        }
    }

    /// The width of a digit, in bits.
    pub fn w(self) -> u32
        ensures { result ≡ (ots_row self).w }
    {
        match self {
            OtsKind::W1 => 1,
            OtsKind::W2 => 2,
            OtsKind::W4 => 4,
            OtsKind::W8 => 8,
        }
    }

    /// The number of chains.
    pub fn p(self) -> usize
        ensures { result ≡ (ots_row self).p }
    {
        match self {
            OtsKind::W1 => 265,
            OtsKind::W2 => 133,
            OtsKind::W4 => 67,
            OtsKind::W8 => 34,
        }
    }

    /// The shift of the checksum, in bits.
    pub fn ls(self) -> u32
        ensures { result ≡ (ots_row self).ls }
    {
        match self {
            OtsKind::W1 => 7,
            OtsKind::W2 => 6,
            OtsKind::W4 => 4,
            OtsKind::W8 => 0,
        }
    }

    /// The length of a signature, in bytes.
    pub fn length(self) -> usize
        ensures { result ≡ ots_length self }
    {
        4 + 32 + 32 * self.p()
    }

    /// The greatest digit, which is the number of steps of a chain.
    pub(crate) fn steps(self) -> u16
        ensures { result ≡ 2 ^ (ots_row self).w - 1 }
    {
        match self {
            OtsKind::W1 => 1,
            OtsKind::W2 => 3,
            OtsKind::W4 => 15,
            OtsKind::W8 => 255,
        }
    }
}
