//! Which held boxes are among the lines of an entry. Lines are few and held boxes may be many, so the lines are sorted once, and each
//! held box is looked for among them. What stands for a line is small: its keys, and the digest of its bytes.
ghost use Rattle.std.specs.Prelude.{◌≡◌, map, filter, IfOk};
ghost use Rattle.std.specs.List.{list_any};
ghost use Rattle.std.specs.List.Sorted.{IsStrictlySortedBy};
ghost use Rattle.std.specs.Ordering.{eq_by_cmp};
ghost use Rattle.sha2.specs.Sha256.{sha256};
ghost use Rattle.team_sets.specs.Closure.{has};
ghost use Rattle.team_sets.specs.Members.{IsIn};
ghost use Rattle.tg_text.specs.declared.keys.BoxLine.{BoxLine as Line};
ghost use Rattle.key_reach.specs.Lists.{IsListOf, pair_cmp};
ghost use Rattle.team_model.specs.KeyLines.{same_line};
ghost use Rattle.team_reducer.specs.Prints.{has_pair, has_print, may_be, pair_of, print_cmp, print_of};

use key_reach::{is_member, ordered};
use sha2::{Digest, Sha256};
use std::alloc::Global;
use tg_text::{BoxLine, Bytes, KeyId, Memory};

/// The held boxes that are among these lines, as far as their keys and digests tell.
pub(crate) fn known_boxes(
    alloc: Global,
    held: &[BoxLine],
    lines: &[BoxLine],
) -> Result<Vec<BoxLine>, Memory>
    ensures { IfOk result (λ known. (b : Line) → IsIn b lines.now → list_any (same_line b) known.items ≡ list_any (same_line b) held.now) }
{
    let pairs = pairs_of(alloc, lines)?;
    let prints = prints_of(alloc, lines)?;
    printed(alloc, pairs.as_slice(), prints.as_slice(), held)
}

fn pairs_of(alloc: Global, lines: &[BoxLine]) -> Result<Vec<(KeyId, KeyId)>, Memory>
    ensures { IfOk result (λ pairs. IsListOf pair_cmp (map pair_of lines.now) pairs.items) }
{
    let mut pairs = Vec::new(alloc);
    for line in lines {
        pairs.push((line.to, line.of))?;
    }
    ordered_pairs(alloc, pairs.as_slice())
}

fn ordered_pairs(alloc: Global, pairs: &[(KeyId, KeyId)]) -> Result<Vec<(KeyId, KeyId)>, Memory>
    ensures { IfOk result (λ list. IsListOf pair_cmp pairs.now list.items) }
{
    ordered(alloc, pairs)
}

fn prints_of(alloc: Global, lines: &[BoxLine]) -> Result<Vec<(KeyId, KeyId, [u8; 32])>, Memory>
    ensures { IfOk result (λ prints. IsListOf print_cmp (map print_of lines.now) prints.items) }
{
    let mut prints = Vec::new(alloc);
    for line in lines {
        prints.push(make_print(line))?;
    }
    ordered_prints(alloc, prints.as_slice())
}

fn make_print(line: &BoxLine) -> (KeyId, KeyId, [u8; 32])
    ensures { result ≡ print_of line.now }
{
    (line.to, line.of, digest_of(&line.bytes))
}

fn digest_of(bytes: &Bytes) -> [u8; 32]
    ensures { result ≡ sha256 bytes.now }
{
    Sha256::digest(bytes.as_slice())
}

fn ordered_prints(
    alloc: Global,
    prints: &[(KeyId, KeyId, [u8; 32])],
) -> Result<Vec<(KeyId, KeyId, [u8; 32])>, Memory>
    ensures { IfOk result (λ list. IsListOf print_cmp prints.now list.items) }
{
    ordered(alloc, prints)
}

// The boxes with these pairs of keys and these prints.
fn printed(
    alloc: Global,
    pairs: &[(KeyId, KeyId)],
    prints: &[(KeyId, KeyId, [u8; 32])],
    held: &[BoxLine],
) -> Result<Vec<BoxLine>, Memory>
    requires pairs { IsStrictlySortedBy pair_cmp pairs.now }
    requires prints { IsStrictlySortedBy print_cmp prints.now }
    ensures { IfOk result (λ known. known.items ≡ filter (may_be pairs.now prints.now) held.now) }
{
    let mut known = Vec::new(alloc);
    for line in held {
        if may_be(pairs, prints, line) {
            known.push(copy_line(alloc, line)?)?;
        }
    }
    Ok(known)
}

// Whether a box may be among the lines. The digest is made of few, since mostly the pair of keys is no line's.
fn may_be(pairs: &[(KeyId, KeyId)], prints: &[(KeyId, KeyId, [u8; 32])], line: &BoxLine) -> bool
    requires pairs { IsStrictlySortedBy pair_cmp pairs.now }
    requires prints { IsStrictlySortedBy print_cmp prints.now }
    ensures { result ≡ may_be pairs.now prints.now line.now }
{
    has_pair(pairs, line) && has_print(prints, line)
}

fn has_pair(pairs: &[(KeyId, KeyId)], line: &BoxLine) -> bool
    requires { IsStrictlySortedBy pair_cmp pairs.now }
    ensures { result ≡ has_pair pairs.now line.now }
{
    let pair = (line.to, line.of);
    is_pair(pairs, &pair)
}

fn is_pair(pairs: &[(KeyId, KeyId)], pair: &(KeyId, KeyId)) -> bool
    requires { IsStrictlySortedBy pair_cmp pairs.now }
    ensures { result ≡ has (eq_by_cmp pair_cmp) pairs.now pair.now }
{
    is_member(pairs, pair)
}

fn has_print(prints: &[(KeyId, KeyId, [u8; 32])], line: &BoxLine) -> bool
    requires { IsStrictlySortedBy print_cmp prints.now }
    ensures { result ≡ has_print prints.now line.now }
{
    let print = make_print(line);
    is_print(prints, &print)
}

fn is_print(prints: &[(KeyId, KeyId, [u8; 32])], print: &(KeyId, KeyId, [u8; 32])) -> bool
    requires { IsStrictlySortedBy print_cmp prints.now }
    ensures { result ≡ has (eq_by_cmp print_cmp) prints.now print.now }
{
    is_member(prints, print)
}

/// An equal line.
pub(crate) fn copy_line(alloc: Global, line: &BoxLine) -> Result<BoxLine, Memory>
    ensures { IfOk result (λ it. it ≡ line.now) }
{
    Ok(BoxLine {
        to: line.to,
        of: line.of,
        bytes: line.bytes.copy(alloc)?,
    })
}
