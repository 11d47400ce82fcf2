use crate::lms_kind::LmsKind;
use lms_ots::OtsKind;

/// What a tree is made from: its two kinds, its id and its seed. The seed is the private key, so it isn't printed.
#[derive(Clone, Copy)]
pub struct TreeKey {
    pub lms: LmsKind,
    pub ots: OtsKind,
    pub id: [u8; 16],
    pub seed: [u8; 32],
}
