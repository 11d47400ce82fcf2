//! Names, scopes, keys and short texts as plain values, and the spelling of the fields and lines of every text.
//!
//! `specs/Spelling.antt` says how each field is spelled, and every reader's contract cites it through `Reads`: what is
//! found is spelled so, and what is spelled so is found. All crates that read or write a text stand on this one.
#![tactic(auto)]

mod bytes;
mod fields;
mod items;
mod key_text;
mod keys;
mod laws;
mod limits;
mod line_writing;
mod lines;
mod memory;
mod names;
mod numbers;
mod public_key;
mod scope_text;
mod text;
mod title;
mod user_name;
mod word;
mod writing;

pub use bytes::Bytes;
pub use fields::{read_base64, read_decimal, read_hex32};
pub use items::Items;
pub use key_text::{write_key_id, write_scope};
pub use keys::{BoxLine, KeyId, KeyLines, Scope, compare_keys, compare_scopes};
pub use laws::{fields_are_whole, spellings_differ};
pub use limits::{MOST_FILE_BYTES, MOST_LINK_BYTES, MOST_LINKS};
pub use line_writing::{write_base64_line, write_decimal_line, write_hex_line, write_text_line};
pub use lines::{Lines, split_once, strip_front};
pub use memory::Memory;
pub use names::{DeviceId, LinkName, PublicKey};
pub use numbers::number_at;
pub use title::Title;
pub use user_name::{RoleName, UserName};
pub use word::Word;
pub use writing::{write_base64, write_decimal, write_hex};
