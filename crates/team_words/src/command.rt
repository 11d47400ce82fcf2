ghost use Rattle.std.specs.Prelude.{◌≡◌, ◌∷◌, ◌&&◌, [], cond, map, Option, None, Some, IfOk, string_bytes};
ghost use Rattle.team_words.specs.Words.{IsCommandOf, IsKeyedBy, are_two_files, command_with, hash_of, is_field, is_title, keys_of, make_of, make_with, meet_of, merge_of, newkey_of, plain_of, report_of, why_of};

use crate::field::{are_fields, is_field};
use crate::given::GivenAct;
use crate::laws::words_are_one_command;
use std::alloc::Global;
use tg_text::{LinkName, Memory, Title, UserName, Word, read_hex32};

/// A command, with the words that it was given.
#[derive(Debug, Drop)]
pub enum Command {
    /// Makes a key, and a team that its owner founds.
    Make {
        file: Word,
        key_file: Word,
        user: UserName,
        title: Title,
    },
    /// Makes a key file for a device of the user's.
    Newkey {
        key_file: Word,
        user: UserName,
    },
    /// Writes a link of an act by a key, without key lines.
    Plain {
        file: Word,
        key_file: Word,
        act: GivenAct,
    },
    /// Gives the links of a bundle to the team of a file.
    Merge {
        file: Word,
        bundle: Word,
    },
    /// Gives each of two teams' files what is connected in the other.
    Meet {
        file: Word,
        other: Word,
    },
    /// Prints the team of the links in a file.
    Show {
        file: Word,
    },
    /// Prints what became of each link in a file.
    Log {
        file: Word,
    },
    /// Prints the heads of the links in a file.
    Heads {
        file: Word,
    },
    /// Prints what is known of a link in a file.
    Why {
        file: Word,
        name: LinkName,
    },
    /// Prints the keys that the device of a key file opens in the team of a file.
    Keys {
        file: Word,
        key_file: Word,
    },
}

/// The command that the words are, `None` where they are none.
pub fn command_of(alloc: Global, words: &[String]) -> Result<Option<Command>, Memory>
    ensures { IfOk result (λ found. IsCommandOf (map string_bytes words.now) found) }
{
    // A law: it does nothing at run time.
    words_are_one_command();
    if words.len() > 3 {
        let (first, rest) = words.split_at(3);
        return with_key(
            alloc,
            first[0].as_str(),
            first[1].as_str(),
            first[2].as_str(),
            rest,
        );
    }
    match words {
        [word, file] => file_of(alloc, word.as_str(), file.as_str()),
        [word, first, second] => { pair_of(alloc, word.as_str(), first.as_str(), second.as_str()) }
        _ => Ok(None),
    }
}

// A command with a file, a key file, and further words.
fn with_key(
    alloc: Global,
    word: &str,
    file: &str,
    key_file: &str,
    rest: &[String],
) -> Result<Option<Command>, Memory>
    ensures { IfOk result (λ found. IsKeyedBy word.now file.now key_file.now (map string_bytes rest.now) found) }
{
    if word == "plain" {
        let act = GivenAct::read(alloc, rest)?;
        return plain_of(alloc, file, key_file, rest, act);
    }
    if word == "make" {
        return make_with(alloc, file, key_file, rest);
    }
    Ok(None)
}

fn plain_of(
    alloc: Global,
    file: &str,
    key_file: &str,
    words: &[String],
    act: Option<GivenAct>,
) -> Result<Option<Command>, Memory>
    ensures { IfOk result (λ found. found ≡ plain_of file.now key_file.now (map string_bytes words.now) act) }
{
    if !(is_field(file) && is_field(key_file) && are_fields(words)) {
        return Ok(None);
    }
    match act {
        Some(act) => {
            let file = Word::new(alloc, file)?;
            let key_file = Word::new(alloc, key_file)?;
            Ok(Some(Command::Plain {
                file,
                key_file,
                act,
            }))
        }
        None => Ok(None),
    }
}

fn make_with(
    alloc: Global,
    file: &str,
    key_file: &str,
    words: &[String],
) -> Result<Option<Command>, Memory>
    ensures { IfOk result (λ found. found ≡ make_with file.now key_file.now (map string_bytes words.now)) }
{
    match words {
        [user, title] => make_of(alloc, file, key_file, user.as_str(), title.as_str()),
        _ => Ok(None),
    }
}

// A command with a file alone.
fn file_of(alloc: Global, word: &str, file: &str) -> Result<Option<Command>, Memory>
    ensures { IfOk result (λ found. found ≡ command_with None (word.now ∷ file.now ∷ [])) }
{
    if is_field(file) {
        return report_of(alloc, word, file);
    }
    Ok(None)
}

fn report_of(alloc: Global, word: &str, file: &str) -> Result<Option<Command>, Memory>
    ensures { IfOk result (λ found. found ≡ report_of word.now file.now) }
{
    if word == "show" {
        let file = Word::new(alloc, file)?;
        return Ok(Some(Command::Show { file }));
    }
    if word == "log" {
        let file = Word::new(alloc, file)?;
        return Ok(Some(Command::Log { file }));
    }
    if word == "heads" {
        let file = Word::new(alloc, file)?;
        return Ok(Some(Command::Heads { file }));
    }
    Ok(None)
}

fn make_of(
    alloc: Global,
    file: &str,
    key_file: &str,
    user: &str,
    title: &str,
) -> Result<Option<Command>, Memory>
    ensures { IfOk result (λ found. found ≡ make_of file.now key_file.now user.now title.now) }
{
    if !are_two_files(file, key_file) {
        return Ok(None);
    }
    let Some(user) = UserName::read(user.as_bytes()) else {
        return Ok(None);
    };
    let Some(title) = title_of(title) else {
        return Ok(None);
    };
    let file = Word::new(alloc, file)?;
    let key_file = Word::new(alloc, key_file)?;
    Ok(Some(Command::Make {
        file,
        key_file,
        user,
        title,
    }))
}

// The words name two files, by two words.
fn are_two_files(file: &str, other: &str) -> bool
    ensures { result ≡ are_two_files file.now other.now }
{
    is_field(file) && is_field(other) && file != other
}

// The title that a word gives.
fn title_of(word: &str) -> Option<Title>
    ensures { result ≡ cond (is_field word.now && is_title word.now) (Some word.now) None }
{
    if is_field(word) {
        read_title(word.as_bytes())
    } else {
        None
    }
}

// The title that the bytes are.
fn read_title(bytes: &[u8]) -> Option<Title>
    ensures { result ≡ cond (is_title bytes.now) (Some bytes.now) None }
{
    Title::read(bytes)
}

// A command with two fields.
fn pair_of(alloc: Global, word: &str, first: &str, second: &str) -> Result<Option<Command>, Memory>
    ensures { IfOk result (λ found. found ≡ command_with None (word.now ∷ first.now ∷ second.now ∷ [])) }
{
    if word == "merge" {
        return merge_of(alloc, first, second);
    }
    if word == "newkey" {
        return newkey_of(alloc, first, second);
    }
    if word == "why" {
        return why_of(alloc, first, second);
    }
    if word == "keys" {
        return keys_of(alloc, first, second);
    }
    if word == "meet" {
        return meet_of(alloc, first, second);
    }
    Ok(None)
}

fn merge_of(alloc: Global, file: &str, bundle: &str) -> Result<Option<Command>, Memory>
    ensures { IfOk result (λ found. found ≡ merge_of file.now bundle.now) }
{
    if is_field(file) && is_field(bundle) {
        let file = Word::new(alloc, file)?;
        let bundle = Word::new(alloc, bundle)?;
        return Ok(Some(Command::Merge { file, bundle }));
    }
    Ok(None)
}

fn meet_of(alloc: Global, file: &str, other: &str) -> Result<Option<Command>, Memory>
    ensures { IfOk result (λ found. found ≡ meet_of file.now other.now) }
{
    if is_field(file) && is_field(other) {
        let file = Word::new(alloc, file)?;
        let other = Word::new(alloc, other)?;
        return Ok(Some(Command::Meet { file, other }));
    }
    Ok(None)
}

fn newkey_of(alloc: Global, key_file: &str, user: &str) -> Result<Option<Command>, Memory>
    ensures { IfOk result (λ found. found ≡ newkey_of key_file.now user.now) }
{
    if !is_field(key_file) {
        return Ok(None);
    }
    match UserName::read(user.as_bytes()) {
        Some(user) => {
            let key_file = Word::new(alloc, key_file)?;
            Ok(Some(Command::Newkey { key_file, user }))
        }
        None => Ok(None),
    }
}

fn why_of(alloc: Global, file: &str, name: &str) -> Result<Option<Command>, Memory>
    ensures { IfOk result (λ found. found ≡ why_of file.now name.now) }
{
    if !is_field(file) {
        return Ok(None);
    }
    match name_of(name) {
        Some(name) => {
            let file = Word::new(alloc, file)?;
            Ok(Some(Command::Why { file, name }))
        }
        None => Ok(None),
    }
}

fn keys_of(alloc: Global, file: &str, key_file: &str) -> Result<Option<Command>, Memory>
    ensures { IfOk result (λ found. found ≡ keys_of file.now key_file.now) }
{
    if is_field(file) && is_field(key_file) {
        let file = Word::new(alloc, file)?;
        let key_file = Word::new(alloc, key_file)?;
        return Ok(Some(Command::Keys { file, key_file }));
    }
    Ok(None)
}

// The name of a link that a word spells.
fn name_of(word: &str) -> Option<LinkName>
    ensures { result ≡ hash_of word.now }
{
    match read_hex32(word.as_bytes()) {
        Some(bytes) => Some(LinkName(bytes)),
        None => None,
    }
}
