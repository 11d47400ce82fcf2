//! One-time signatures used alone, and the path that ends the signature of a tree.
use lms_ots::{OtsKind, ots_candidate, ots_public, ots_random, ots_secret, ots_sign};
use lms_tree::Tree;
use std::test::Fail;

const ID: [u8; 16] = [1; 16];

const SEED: [u8; 32] = [2; 32];

// The signature of `hello`.
fn signature() -> [u8; 1124] {
    let mut secrets = [[0; 32]; 34];
    for i in 0..34u16 {
        secrets[i as usize] = ots_secret(&ID, 0, i, &SEED);
    }
    let random = ots_random(&ID, 0, &SEED);
    let mut signature = [0; 1124];
    ots_sign(
        OtsKind::W8,
        &ID,
        0,
        &secrets,
        &random,
        b"hello",
        &mut signature,
    );
    signature
}

// Whether it is one of this message, of this kind.
fn is_of(kind: OtsKind, message: &[u8], signature: &[u8]) -> bool {
    ots_candidate(kind, &ID, 0, message, signature) == Some(ots_public(kind, &ID, 0, &SEED))
}

fn has_no_form(kind: OtsKind, signature: &[u8]) -> bool {
    ots_candidate(kind, &ID, 0, b"hello", signature).is_none()
}

#[test]
fn a_one_time_signature_is_of_its_message(rt: HostRuntime) {
    let signature = signature();
    assert!(rt;
        is_of(OtsKind::W8, b"hello", &signature) && !is_of(OtsKind::W8, b"hullo", &signature)
    );
    assert!(rt; has_no_form(OtsKind::W8, &[0; 1123]) && has_no_form(OtsKind::W4, &signature));
}

// Whether the signature of the first leaf ends with its path.
fn ends_with_path(path: &[[u8; 32]], signature: &[u8]) -> bool {
    path.len() == 5 && signature.len() == 2348 && path.as_flattened() == signature.split_at(2188).1
}

#[test]
fn path_ends_a_signature(rt: HostRuntime) -> Result<(), Fail> {
    let alloc = rt.alloc();
    let tree = Tree::make(alloc, 5, 3, &[0x11; 16], &[0x22; 32])?;
    let path = tree.path(alloc, 0)?;
    let signature = tree.sign(alloc, 0, b"any")?;
    assert!(rt; ends_with_path(path.as_slice(), signature.as_slice()));
    Ok(())
}
