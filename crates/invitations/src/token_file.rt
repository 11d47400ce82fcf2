ghost use Rattle.std.specs.Prelude.{◌≡◌, ◌↔◌, IfOk, IfSome, IsTrue};
ghost use Rattle.tg_text.specs.Reading.{Reads};
ghost use Rattle.invitations.specs.Parts.{AreOfToken, Chooses, file_of, token_parts};
ghost use Rattle.invitations.specs.TokenText.{IsToken, IsTokenFile, token_file_text, token_text, used_text};

use crate::leaf::is_token;
use crate::token::Token;
use crate::token_lines::{Parts, read_parts, token_of_parts};
use std::alloc::Global;
use tg_text::Memory;

/// What a token file holds.
#[derive(Drop)]
pub enum TokenFile {
    /// A token that hasn't signed.
    Fresh(Token),
    /// The token has signed, and is gone.
    Used,
}

impl TokenFile {
    /// What the text of a token file holds: None exactly where the bytes are no token file's. Of a token the root of its
    /// leaf is computed, which takes some thousand hashes.
    pub fn read(alloc: Global, bytes: &[u8]) -> Result<Option<TokenFile>, Memory>
        ensures { IfOk result (λ found. Reads IsTokenFile token_file_text bytes.now found) }
    {
        if is_used(bytes) {
            return Ok(Some(TokenFile::Used));
        }
        let found = read_token(alloc, bytes)?;
        Ok(file_of(found))
    }
}

// What the file of a token holds, where it is one.
fn file_of(found: Option<Token>) -> Option<TokenFile>
    ensures { result ≡ file_of found }
{
    match found {
        Some(token) => Some(TokenFile::Fresh(token)),
        None => None,
    }
}

/// The text of the file of a token that has signed.
pub fn used_text() -> &'static [u8]
    ensures { result.now ≡ used_text }
{
    b"team-token-used 1\n"
}

fn is_used(bytes: &[u8]) -> bool
    ensures { IsTrue result ↔ (bytes.now ≡ used_text) }
{
    bytes == used_text()
}

// The token of this text.
fn read_token(alloc: Global, text: &[u8]) -> Result<Option<Token>, Memory>
    ensures { IfOk result (λ found. Reads IsToken token_text text.now found) }
{
    let found = read_parts(alloc, text)?;
    Ok(token_in(found))
}

// The token of these parts, where they are those of one.
fn token_in(found: Option<Parts>) -> Option<Token>
    requires { IfSome found AreOfToken }
    ensures { Chooses IsToken token_parts found result }
{
    match found {
        Some(parts) => {
            let token = token_of_parts(parts);
            if is_token(&token) { Some(token) } else { None }
        }
        None => None,
    }
}
