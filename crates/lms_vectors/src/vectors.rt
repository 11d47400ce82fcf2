use hex::FromHex;
use lms_tree::{Tree, verify};
use sha2::{Digest, Sha256};
use std::alloc::Global;

/// Whether `lms_tree` answers what a line of the vectors says. A line of no known form doesn't hold; one whose digits or types
/// can't be read is an error.
pub fn line_holds(alloc: Global, line: &str) -> Result<bool, anyhow::Error> {
    let words: Vec<&str> = line.split(' ').collect(alloc)?;
    match words.as_slice() {
        [kind, key @ .., bytes] if *kind == "public" => public_holds(alloc, key, bytes),
        [kind, key @ .., q, message, digest, length] if *kind == "sign" => sign_holds(
            alloc, key, q, message, digest, length,
        ),
        [kind, public, message, signature, answer] if *kind == "verify" => verify_holds(
            alloc, public, message, signature, answer,
        ),
        _ => Ok(false),
    }
}

fn public_holds(alloc: Global, key: &[&str], bytes: &str) -> Result<bool, anyhow::Error> {
    let Some(tree) = read_tree(alloc, key)? else {
        return Ok(false)
    };
    let bytes = hex::decode(alloc, bytes)?;
    Ok(bytes.as_slice() == tree.public().as_slice())
}

fn sign_holds(
    alloc: Global,
    key: &[&str],
    q: &str,
    message: &str,
    digest: &str,
    length: &str,
) -> Result<bool, anyhow::Error> {
    let Some(tree) = read_tree(alloc, key)? else {
        return Ok(false)
    };
    let Ok(q) = q.parse::<u32>() else {
        return Ok(false)
    };
    let Ok(length) = length.parse::<usize>() else {
        return Ok(false)
    };
    let Ok(digest) = <[u8; 32] as FromHex>::from_hex(digest) else {
        return Ok(false)
    };
    if q >= tree.leaves() {
        return Ok(false);
    }
    let message = read_message(alloc, message)?;
    let signature = tree.sign(alloc, q, message.as_slice())?;
    let right = Sha256::digest(signature.as_slice()) == digest;
    let accepted = verify(
        tree.public().as_slice(),
        message.as_slice(),
        signature.as_slice(),
    );
    Ok(right && accepted && signature.len() == length && tree.length() == length)
}

fn verify_holds(
    alloc: Global,
    public: &str,
    message: &str,
    signature: &str,
    answer: &str,
) -> Result<bool, anyhow::Error> {
    let public = read_message(alloc, public)?;
    let message = read_message(alloc, message)?;
    let signature = read_message(alloc, signature)?;
    let verified = verify(public.as_slice(), message.as_slice(), signature.as_slice());
    Ok((answer == "true" && verified) || (answer == "false" && !verified))
}

fn read_tree(alloc: Global, key: &[&str]) -> Result<Option<Tree>, anyhow::Error> {
    let [lms, ots, id, seed] = key else {
        return Ok(None)
    };
    let Ok(lms) = lms.parse::<u32>() else {
        return Ok(None)
    };
    let Ok(ots) = ots.parse::<u32>() else {
        return Ok(None)
    };
    let Ok(id) = <[u8; 16] as FromHex>::from_hex(*id) else {
        return Ok(None)
    };
    let Ok(seed) = <[u8; 32] as FromHex>::from_hex(*seed) else {
        return Ok(None)
    };
    let tree = Tree::make(alloc, lms, ots, &id, &seed)?;
    Ok(Some(tree))
}

fn read_message(alloc: Global, text: &str) -> Result<Vec<u8>, anyhow::Error> {
    if text == "-" {
        return Ok(Vec::new(alloc));
    }
    let bytes = hex::decode(alloc, text)?;
    Ok(bytes)
}
