ghost use Rattle.std.specs.Prelude.{◌≡◌};
ghost use Rattle.team_model.specs.Strikes as words;

use acts::{Act, Entry, device_of};
use tg_text::{DeviceId, UserName};

/// The user whom an entry brings in. It takes no memory.
pub fn brings_user(entry: &Entry) -> Option<UserName>
    ensures { result ≡ words.brought_user entry.now entry.now.act }
{
    match &entry.act {
        Act::Found { .. } => Some(entry.user),
        Act::AddMember { user, .. } => Some(*user),
        Act::AdmitMember { user, .. } => Some(*user),
        _ => None,
    }
}

/// The device that an entry brings in: the founder's own, and otherwise the one of the key that the act names. It takes no memory.
pub fn brings_device(entry: &Entry) -> Option<DeviceId>
    ensures { result ≡ words.brought_device entry.now entry.now.act }
{
    match &entry.act {
        Act::Found { .. } => Some(entry.device),
        Act::AddMember { key, .. } => Some(device_of(key)),
        Act::AddDevice { key, .. } => Some(device_of(key)),
        Act::AdmitMember { key, .. } => Some(device_of(key)),
        Act::AdmitDevice { key, .. } => Some(device_of(key)),
        _ => None,
    }
}
