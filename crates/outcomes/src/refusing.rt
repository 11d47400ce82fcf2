ghost use Rattle.std.specs.Prelude.{◌≡◌, IfOk, IfSome};
ghost use Rattle.outcomes.specs.Ending.{HasCauseOrStop};
ghost use Rattle.outcomes.specs.Refusing.{FindsBytes, FindsNone, IsFaultOf, IsFound, RefusesWith, fault_line, spell_word};

use crate::answer::Answer;
use crate::status::BAD_FILE;
use crate::stop::Stop;
use std::alloc::Global;
use tg_outside::Files;
use tg_text::{Bytes, Memory};

/// Why a file is refused.
#[derive(Clone, Copy, Debug, PartialEq, Eq)]
pub enum FileWord {
    /// It isn't there, and has to be.
    NoFile,
    /// It is there, and must not be.
    Exists,
    /// It is no team's file.
    BadFile,
    /// It is no key file.
    BadKeyFile,
}

impl FileWord {
    /// The word that is printed.
    pub fn as_str(self) -> &'static str
        ensures { result.now ≡ spell_word self }
    {
        match self {
            FileWord::NoFile => "NoFile",
            FileWord::Exists => "Exists",
            FileWord::BadFile => "BadFile",
            FileWord::BadKeyFile => "BadKeyFile",
        }
    }
}

// The answer that is a fault of a file.
fn fault_answer(alloc: Global, name: &str, word: FileWord) -> Result<Answer, Memory>
    ensures { IfOk result (λ a. (a.status ≡ 3) × (a.text ≡ fault_line name.now word)) }
{
    let word = word.as_str();
    let line = format!(in alloc; "fault {name} {word}\n")?;
    Ok(Answer::say(alloc, BAD_FILE, line.as_bytes())?)
}

/// Refuses a file.
pub fn refuse_file(alloc: Global, name: &str, word: FileWord) -> Stop
    ensures { IsFaultOf name.now word result }
{
    match fault_answer(alloc, name, word) {
        Ok(answer) => Stop::Refused(answer),
        Err(Memory) => Stop::Memory,
    }
}

/// Opens a file of any bytes.
pub fn open_bytes<F: Files>(alloc: Global, files: &mut F, name: &str) -> Result<Bytes, Stop>
    ensures opened { IfSome (F.files files.old) (λ m. IsFound FindsBytes m name.now result) }
    ensures same { F.files files.new ≡ F.files files.old }
    ensures refused { RefusesWith 3 result }
    ensures cause { HasCauseOrStop (F.faults files.old) (F.faults files.new) result }
{
    match files.read(alloc, name)? {
        Some(bytes) => Ok(bytes),
        None => Err(refuse_file(alloc, name, FileWord::NoFile)),
    }
}

/// Refuses a file that is there.
pub fn must_be_absent<F: Files>(alloc: Global, files: &mut F, name: &str) -> Result<(), Stop>
    ensures opened { IfSome (F.files files.old) (λ m. IsFound FindsNone m name.now result) }
    ensures same { F.files files.new ≡ F.files files.old }
    ensures refused { RefusesWith 3 result }
    ensures cause { HasCauseOrStop (F.faults files.old) (F.faults files.new) result }
{
    match files.read(alloc, name)? {
        None => Ok(()),
        Some(_) => Err(refuse_file(alloc, name, FileWord::Exists)),
    }
}
