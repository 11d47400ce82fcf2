//! Devices and invitations by name, and the acts that bear their keys.
use acts::{Act, device_of};
use std::alloc::Global;
use tg_text::{Bytes, DeviceId, Memory, PublicKey, write_base64, write_hex};

/// The key of a device: its types, and then the name's bytes. A name is a word of 1 to 48 bytes.
fn key_of(name: &str) -> Option<PublicKey> {
    let name = name.as_bytes();
    if name.is_empty() || name.contains(&b' ') {
        return None;
    }
    let mut key = [0; 56];
    key[3] = 5;
    key[7] = 3;
    for (place, byte) in name.iter().enumerate() {
        if place >= 48 {
            return None;
        }
        key[8 + place] = *byte;
    }
    Some(PublicKey(key))
}

/// The id of the device with this name.
pub fn id_of(name: &str) -> Option<DeviceId> {
    Some(device_of(&key_of(name)?))
}

/// The act that a text spells, in which devices stand by their names.
pub fn read_act(alloc: Global, text: &str) -> Result<Option<Act>, Memory> {
    let mut spelled = Bytes::new(alloc);
    for word in text.split(' ') {
        if !spelled.as_slice().is_empty() {
            spelled.append(b" ")?;
        }
        if !append_word(&mut spelled, word)? {
            return Ok(None);
        }
    }
    Act::read(alloc, spelled.as_slice())
}

// Whether the word is one, and no device without a name.
fn append_word(spelled: &mut Bytes, word: &str) -> Result<bool, Memory> {
    if let Some(name) = word.strip_prefix('@') {
        let Some(key) = key_of(name) else {
            return Ok(false);
        };
        write_base64(spelled, key.as_slice())?;
    } else if let Some(name) = word.strip_prefix('%') {
        let Some(id) = id_of(name) else {
            return Ok(false);
        };
        write_hex(spelled, id.as_slice())?;
    } else {
        spelled.append(word.as_bytes())?;
    }
    Ok(true)
}
