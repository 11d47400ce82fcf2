use crate::devices::{id_of, read_act};
use crate::facts::is_so;
use crate::numbering::{numbered, read_each};
use crate::reasons::word_of;
use acts::Entry;
use std::alloc::Global;
use team_reducer::{TeamState, apply, permits};
use tg_outside::{Silent, Steps};
use tg_text::{Items, KeyLines, Memory, UserName, read_decimal};

/// The state that the lines of a table made so far, and how many of them held.
#[derive(Drop)]
pub struct Table {
    state: TeamState,
    time: u64,
    held: u64,
}

impl Table {
    pub fn new(alloc: Global) -> Result<Table, Memory> {
        Ok(Table {
            state: TeamState::new(alloc)?,
            time: 0,
            held: 0,
        })
    }

    /// How many lines held.
    pub fn held(&self) -> u64 {
        self.held
    }

    /// Whether a line holds.
    pub fn holds(&mut self, alloc: Global, line: &str) -> Result<bool, Memory> {
        if line.is_empty() || line.starts_with('#') {
            return Ok(true);
        }
        let holds = match line.strip_prefix("each ") {
            Some(rest) => self.each_is_right(alloc, rest)?,
            None => self.is_right(alloc, line)?,
        };
        if holds {
            self.held = self.held.saturating_add(1);
        }
        Ok(holds)
    }

    fn each_is_right(&mut self, alloc: Global, text: &str) -> Result<bool, Memory> {
        let Some((first, end, line)) = read_each(text) else {
            return Ok(false);
        };
        let mut holds = true;
        for number in first..end {
            let text = numbered(alloc, line, number)?;
            holds = self.is_right(alloc, text.as_str())? && holds;
        }
        Ok(holds)
    }

    fn is_right(&mut self, alloc: Global, line: &str) -> Result<bool, Memory> {
        if line == "new" {
            self.state = TeamState::new(alloc)?;
            self.time = 0;
            return Ok(true);
        }
        let Some((word, rest)) = line.split_once(' ') else {
            return Ok(false);
        };
        match word {
            "time" => Ok(self.goes_to(rest)),
            "has" => Ok(is_so(&self.state, rest) == Some(true)),
            "lacks" => Ok(is_so(&self.state, rest) == Some(false)),
            _ => self.takes(alloc, word, rest),
        }
    }

    // Whether the text is a time. The entries of the lines that follow have it.
    fn goes_to(&mut self, text: &str) -> bool {
        match read_decimal(text.as_bytes()) {
            Some(time) => {
                self.time = time;
                true
            }
            None => false,
        }
    }

    // Whether the entry is permitted or refused as the word says, by both calls, and one that is refused changes nothing.
    fn takes(&mut self, alloc: Global, word: &str, text: &str) -> Result<bool, Memory> {
        let Some(entry) = read_entry(alloc, self.time, text)? else {
            return Ok(false);
        };
        let before = self.state.copy()?;
        let asked = permits(&self.state, &entry).err();
        let mut steps = Steps::new(Silent);
        let done = apply(alloc, &mut self.state, &entry, &mut steps)?;
        let is_kept = done.is_none() || are_same(&before, &self.state);
        Ok(is_kept && word_of(asked) == word && word_of(done) == word)
    }
}

// Whether two states have the same title, and the same rows of the tables that acts write.
fn are_same(one: &TeamState, other: &TeamState) -> bool {
    one.title() == other.title()
        && one.members() == other.members()
        && one.roles() == other.roles()
        && one.devices() == other.devices()
        && one.invitations() == other.invitations()
}

fn read_entry(alloc: Global, time: u64, text: &str) -> Result<Option<Entry>, Memory> {
    let Some((user, rest)) = text.split_once(' ') else {
        return Ok(None);
    };
    let Some((device, act)) = rest.split_once(' ') else {
        return Ok(None);
    };
    let (Some(user), Some(device)) = (UserName::read(user.as_bytes()), id_of(device)) else {
        return Ok(None);
    };
    let Some(act) = read_act(alloc, act)? else {
        return Ok(None);
    };
    Ok(Some(Entry {
        user,
        device,
        time,
        act,
        lines: KeyLines {
            news: Items::new(alloc),
            boxes: Items::new(alloc),
        },
    }))
}
