//! Signing with a key file in memory, of whose calls some fail.
use hex::FromHex;
use lms_keep::{KeyState, SignFault, Signed, sign_known, sign_next};
use sha2::{Digest, Sha256};
use std::alloc::Global;
use std::test::Fail;
use tg_outside::{Fault, MemoryFiles};
use tg_text::{Bytes, PublicKey, read_hex32};

// A key of Ann's of 32 leaves, of which the leaf 10 is next.
const ANN: &str =
    "team-key 1\nuser ann\nkinds 5 1\nid 11111111111111111111111111111111\nseed 2222222222222222222222222222222222222222222222222222222222222222\nsecret 3333333333333333333333333333333333333333333333333333333333333333\nnext 10\n";

// The same key when the leaf has signed.
const ANN_AFTER: &str =
    "team-key 1\nuser ann\nkinds 5 1\nid 11111111111111111111111111111111\nseed 2222222222222222222222222222222222222222222222222222222222222222\nsecret 3333333333333333333333333333333333333333333333333333333333333333\nnext 11\n";

// A key of 1,024 leaves, all of which have signed.
const SPENT: &str =
    "team-key 1\nuser ann\nkinds 6 3\nid 11111111111111111111111111111111\nseed 2222222222222222222222222222222222222222222222222222222222222222\nsecret 3333333333333333333333333333333333333333333333333333333333333333\nnext 1024\n";

// The public key of Ann's key, computed by the LMS of Bouncy Castle 1.72.
const PUBLIC: &str =
    "000000050000000111111111111111111111111111111111b465e8a4ea9fce85d6c1f53dc1036016e2edb0e655ee448b97798f8fc6abc617";

// The SHA-256 of the signature of `abc` by its leaf 10, computed by the same.
const SIGNATURE: &[u8] = b"151c96fd3cf0573026a28cc4e1ad25964595a33b54ada328a0e5358d5126f8fb";

// The public key of another key, of 1,024 leaves.
const OTHER: &[u8] =
    b"AAAABgAAAAMRERERERERERERERERERERSLjq4NB5D1RXa1MeI+Kf8y2qRlqf4MWTqfe8ZzDKa4g=";

// Files in memory that hold a key file `k`, and of whose calls some are to fail.
fn files_with(alloc: Global, text: &str, failing: Vec<u64>) -> Result<MemoryFiles, Fail> {
    let mut files = MemoryFiles::new(alloc, failing);
    files.put(alloc, "k", text.as_bytes())?;
    Ok(files)
}

fn holds(files: &MemoryFiles, text: &str) -> bool {
    match files.get("k") {
        Some(bytes) => bytes.as_slice() == text.as_bytes(),
        None => false,
    }
}

// Whether a file's key doesn't sign for this reason, and the key file holds the text.
fn refuses(
    alloc: Global,
    files: &mut MemoryFiles,
    name: &str,
    fault: SignFault,
    text: &str,
) -> bool {
    sign_next(alloc, files, name, b"abc").err() == Some(fault) && holds(files, text)
}

fn is_signature(signature: &Bytes) -> bool {
    signature.len() == 8684 && Some(Sha256::digest(signature.as_slice())) == read_hex32(SIGNATURE)
}

fn is_by_leaf_10(signed: &Signed) -> bool {
    let is_key = match <[u8; 56] as FromHex>::from_hex(PUBLIC) {
        Ok(public) => signed.key.as_slice() == public.as_slice(),
        Err(_) => false,
    };
    is_key && signed.leaf == 10 && is_signature(&signed.signature)
}

// Whether the key of the file `k` signs, and the file holds the text of the next leaf.
fn signs(alloc: Global, files: &mut MemoryFiles) -> bool {
    match sign_next(alloc, files, "k", b"abc") {
        Ok(signed) => is_by_leaf_10(&signed) && holds(files, ANN_AFTER),
        Err(_) => false,
    }
}

// The replace of call 1 fails and leaves the file, and call 2 finds none; so the same leaf is next.
#[test]
fn the_next_leaf_signs(rt: HostRuntime) -> Result<(), Fail> {
    let alloc = rt.alloc();
    let mut files = files_with(alloc, ANN, vec![in alloc; 1]?)?;
    assert!(rt; refuses(alloc, &mut files, "k", SignFault::WriteFault, ANN));
    assert!(rt; refuses(alloc, &mut files, "none", SignFault::NoFile, ANN));
    assert!(rt; signs(alloc, &mut files));
    Ok(())
}

#[test]
fn a_spent_key_signs_nothing(rt: HostRuntime) -> Result<(), Fail> {
    let alloc = rt.alloc();
    let mut files = files_with(alloc, SPENT, Vec::new(alloc))?;
    assert!(rt; refuses(alloc, &mut files, "k", SignFault::Spent, SPENT));
    Ok(())
}

// Whether a call with a known key fails, and the key file is as before.
fn fails(alloc: Global, files: &mut MemoryFiles, public: &PublicKey) -> bool {
    let signed = sign_known(alloc, files, "k", public, b"abc");
    matches!(signed, Err(Fault::Failed)) && holds(files, ANN)
}

// Whether a file's key is the known one, and signs.
fn signs_known(
    alloc: Global,
    files: &mut MemoryFiles,
    name: &str,
    public: &PublicKey,
) -> Result<bool, Fault> {
    match sign_known(alloc, files, name, public, b"abc")? {
        Some(signature) => Ok(is_signature(&signature)),
        None => Ok(false),
    }
}

// Read fails, then the replace; then the leaf that was next signs.
#[test]
fn a_known_key_signs(rt: HostRuntime) -> Result<(), Fail> {
    let alloc = rt.alloc();
    let public = KeyState::read(ANN.as_bytes())
        .ok_or("no key")?
        .public(alloc)?;
    let mut files = files_with(alloc, ANN, vec![in alloc; 0, 2]?)?;
    assert!(rt; fails(alloc, &mut files, &public) && fails(alloc, &mut files, &public));
    assert!(rt; signs_known(alloc, &mut files, "k", &public)? && holds(&files, ANN_AFTER));
    Ok(())
}

// Whether no key is found in either file.
fn signs_nothing(alloc: Global, text: &str, public: &PublicKey) -> Result<bool, Fail> {
    let mut files = files_with(alloc, text, Vec::new(alloc))?;
    let here = sign_known(alloc, &mut files, "k", public, b"abc")?.is_none();
    let none = sign_known(alloc, &mut files, "none", public, b"abc")?.is_none();
    Ok(here && none)
}

#[test]
fn another_key_signs_nothing(rt: HostRuntime) -> Result<(), Fail> {
    let alloc = rt.alloc();
    let public = PublicKey::read(OTHER).ok_or("no key")?;
    for text in [ANN, SPENT, "no key"] {
        assert!(rt; signs_nothing(alloc, text, &public)?);
    }
    Ok(())
}
