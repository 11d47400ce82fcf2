//! The keys that a device opens: a walk from its own key through the boxes.
ghost use Rattle.std.specs.Prelude.{◌≡◌, ◌<◌, ◌↔◌, true, [], ◌∷◌, All, length, map, IfOk, OnOk, Some};
ghost use Rattle.team_sets.specs.Members.{IsIn};
ghost use Rattle.key_reach.specs.Lists.{IsListOf};
ghost use Rattle.lockboxes.specs.Keeping.{Keeper, Opens, own_key};
ghost use Rattle.lockboxes.specs.Opening.{content, opened_cmp, AreOpened};
ghost use Rattle.lockboxes.specs.Indexes.{contents_at, contents_of, IsGrown};
ghost use Rattle.tg_text.specs.declared.keys.BoxLine.{BoxLine};
ghost use Rattle.lockboxes.specs.declared.opened.Opened as pair;

use crate::opened::Opened;
use crate::places::index;
use crate::sealer::Sealer;
use indexmap::IndexSet;
use key_reach::KeyTable;
use std::alloc::Global;
use std::hash::Hash;
use tg_text::{BoxLine, DeviceId, KeyId, Memory, Scope};

/// The keys that a device with this secret opens through the held boxes, each with its secret: its own, and the content of each
/// box whose recipient it opens, where that is a secret of the key that the box names. They stand by key, and then by secret.
///
/// Each box is tried once with each secret of its recipient. The device needn't be listed, nor the secret be that of a listed key.
pub fn open_all<K: Sealer, V: KeyTable>(
    alloc: Global,
    sealer: &K,
    view: &V,
    device: &DeviceId,
    secret: &[u8; 32],
) -> Result<Vec<Opened>, Memory>
    ensures { let keeper : Keeper = record { public_of = K.public; unseal = K.opened } in
        IfOk result (λ list. AreOpened keeper (V.table view.now).boxes device.now secret.now list.items) }
{
    let own = own_pair(sealer, device, secret);
    let opened = walk(alloc, sealer, view.boxes(), own)?;
    ordered_pairs(alloc, opened.as_slice())
}

fn own_pair<K: Sealer>(sealer: &K, device: &DeviceId, secret: &[u8; 32]) -> Opened
    ensures { let keeper : Keeper = record { public_of = K.public; unseal = K.opened } in
        result ≡ record { key = own_key keeper device.now secret.now; secret = secret.now } }
{
    let key = KeyId {
        scope: Scope::Device(*device),
        generation: 0,
        public: sealer.public_of(secret),
    };
    Opened {
        key,
        secret: *secret,
    }
}

// What a pair opens: each pair once, in the order in which it is found.
fn walk<K: Sealer>(
    alloc: Global,
    sealer: &K,
    boxes: &[BoxLine],
    own: Opened,
) -> Result<IndexSet<Opened>, Memory>
    ensures { let keeper : Keeper = record { public_of = K.public; unseal = K.opened } in
        IfOk result (λ opened. (o : pair.Opened) → IsIn o opened.keys ↔ Opens keeper boxes.now own.key own.secret o.key o.secret) }
{
    let recipients = recipients(alloc, boxes)?;
    let places = index(alloc, recipients.as_slice())?;
    let mut opened = IndexSet::new(alloc);
    add(&mut opened, own)?;
    let mut next = 0;
    while next < opened.len() {
        let from = opened.as_slice()[next];
        open_boxes(
            sealer,
            boxes,
            places.of(&from.key),
            &from.secret,
            &mut opened,
        )?;
        next += 1;
    }
    Ok(opened)
}

fn recipients(alloc: Global, boxes: &[BoxLine]) -> Result<Vec<KeyId>, Memory>
    ensures { IfOk result (λ keys. keys.items ≡ map (λ b. b.to) boxes.now) }
{
    let mut keys = Vec::new(alloc);
    for line in boxes {
        keys.push(line.to)?;
    }
    Ok(keys)
}

// Adds what a secret makes of the boxes at these places.
fn open_boxes<K: Sealer>(
    sealer: &K,
    boxes: &[BoxLine],
    places: &[usize],
    secret: &[u8; 32],
    opened: &mut IndexSet<Opened>,
) -> Result<(), Memory>
    requires { All (λ i. i < length boxes.now) places.now }
    ensures { let keeper : Keeper = record { public_of = K.public; unseal = K.opened } in
        OnOk result (IsGrown opened.old.keys opened.new.keys (contents_at keeper secret.now boxes.now places.now)) }
{
    for place in places {
        open_box(sealer, &boxes[*place], secret, opened)?;
    }
    Ok(())
}

fn open_box<K: Sealer>(
    sealer: &K,
    line: &BoxLine,
    secret: &[u8; 32],
    opened: &mut IndexSet<Opened>,
) -> Result<(), Memory>
    ensures { let keeper : Keeper = record { public_of = K.public; unseal = K.opened } in
        OnOk result (IsGrown opened.old.keys opened.new.keys (contents_of keeper secret.now (Some line.now))) }
{
    match open(sealer, line, secret) {
        Some(pair) => add(opened, pair),
        None => Ok(()),
    }
}

// What a secret makes of a box, where it is a secret of the key that the box names.
fn open<K: Sealer>(sealer: &K, line: &BoxLine, secret: &[u8; 32]) -> Option<Opened>
    ensures { let keeper : Keeper = record { public_of = K.public; unseal = K.opened } in result ≡ content keeper secret.now line.now }
{
    let content = sealer.unseal(line.bytes.as_slice(), secret)?;
    if sealer.public_of(&content) != line.of.public {
        return None;
    }
    Some(Opened {
        key: line.of,
        secret: content,
    })
}

fn add<T: Eq + Hash + Drop>(values: &mut IndexSet<T>, value: T) -> Result<(), Memory>
    requires { (x y : T) → T.eq x y ≡ true → x ≡ y }
    ensures { OnOk result (IsGrown values.old.keys values.new.keys (value ∷ [])) }
{
    values.insert(value)?;
    Ok(())
}

fn ordered_pairs(alloc: Global, pairs: &[Opened]) -> Result<Vec<Opened>, Memory>
    ensures { IfOk result (λ list. IsListOf opened_cmp pairs.now list.items) }
{
    ordered(alloc, pairs)
}

// The members of a list in ascending order, each once.
fn ordered<T: Ord + Copy>(alloc: Global, members: &[T]) -> Result<Vec<T>, Memory>
    ensures { IfOk result (λ list. IsListOf T.cmp members.now list.items) }
{
    let mut list = Vec::from_slice(alloc, members)?;
    list.sort()?;
    list.dedup();
    Ok(list)
}
