//! The text of why.
ghost use Rattle.std.specs.Prelude.{◌≡◌, ◌<◌, ◌++◌, ◌∷◌, [], true, codes, length, option_copied, slice_get, IfOk, IfSome, OnOk, Some};
ghost use Rattle.std.specs.Option.{option_map_or};
ghost use Rattle.tg_text.specs.Spelling.{line_of, spell_decimal, spell_hex};
ghost use Rattle.acts.specs.ActText.{spell_act};
ghost use Rattle.team_sets.specs.Names.{has_name, same_name};
ghost use Rattle.team_sets.specs.Order.{names};
ghost use Rattle.team_model.specs.Judging.{name_of, team_rules, verdict};
ghost use Rattle.link_graph.specs.Held.{arrived_of};
ghost use Rattle.team_report.specs.VerdictWords.{spell_verdict};
ghost use Rattle.team_report.specs.WhyText.{explained, link_named, why_named, why_text};

use crate::verdict_words::write_verdict;
use acts::{Act, Entry};
use replica::{Replica, Verdict};
use std::alloc::Global;
use team_model::Link;
use tg_text::{Bytes, LinkName, Memory, write_decimal_line, write_hex, write_hex_line};

/// The text of why: a held link's author, act and height, and what became of it. A link that waits has no height.
pub fn why_text(alloc: Global, replica: &Replica, name: &LinkName) -> Result<Bytes, Memory>
    requires held { has_name (names name_of replica.now.links) name.now ≡ true }
    ensures { IfOk result (λ out. why_named replica.now.links name.now ≡ Some out) }
{
    let graph = replica.graph();
    // A law: it does nothing at run time.
    graph.is_held();
    match graph.position(name) {
        Some(position) => explain_connected(alloc, replica, position),
        None => match link_named(graph.links(), name) {
            Some(link) => explain(alloc, link, None, &Verdict::Waiting),
            None => unreachable!(),
        },
    }
}

// The text of the link of a position.
fn explain_connected(alloc: Global, replica: &Replica, position: u32) -> Result<Bytes, Memory>
    requires given { position < length (arrived_of replica.now.links) }
    ensures { IfOk result (λ out. IfSome (slice_get (arrived_of replica.now.links) position) (λ x. out ≡ why_text replica.now.links x)) }
{
    let graph = replica.graph();
    // A law: it does nothing at run time.
    graph.is_held();
    let height = graph.height(position);
    let verdict = verdict_at(replica, position);
    explain(alloc, graph.link_at(position), Some(height), verdict)
}

// What became of the link of a position.
fn verdict_at(replica: &Replica, position: u32) -> &Verdict
    requires given { position < length (arrived_of replica.now.links) }
    ensures { IfSome (slice_get (arrived_of replica.now.links) position) (λ x. result.now ≡ verdict team_rules replica.now.links x) }
{
    &replica.view().verdicts.as_slice()[position as usize]
}

// The link of this name, if it is one of these.
fn link_named<'a>(links: &'a [Link], name: &LinkName) -> Option<&'a Link>
    ensures { option_copied result ≡ link_named links.now name.now }
{
    for link in links {
        if has_name(link, name) {
            return Some(link);
        }
    }
    None
}

fn has_name(link: &Link, name: &LinkName) -> bool
    ensures { result ≡ same_name name.now link.now.name }
{
    *name == link.name
}

// The text of a link with this height, of which this became.
fn explain(
    alloc: Global,
    link: &Link,
    height: Option<u32>,
    verdict: &Verdict,
) -> Result<Bytes, Memory>
    ensures { IfOk result (λ out. out ≡ explained link.now height verdict.now) }
{
    let mut out = Bytes::new(alloc);
    write_hex_line(&mut out, b"link", link.name.as_slice())?;
    write_author(&mut out, &link.entry)?;
    write_act(&mut out, &link.entry.act)?;
    write_height(&mut out, height)?;
    write_outcome(&mut out, verdict)?;
    Ok(out)
}

fn write_author(out: &mut Bytes, entry: &Entry) -> Result<(), Memory>
    ensures { OnOk result (out.new ≡ out.old ++ line_of (codes "author" ∷ entry.now.user ∷ spell_hex entry.now.device ∷ [])) }
{
    out.append(b"author ")?;
    out.append(entry.user.as_slice())?;
    out.append(b" ")?;
    write_hex(out, entry.device.as_slice())?;
    out.append(b"\n")
}

fn write_act(out: &mut Bytes, act: &Act) -> Result<(), Memory>
    ensures { OnOk result (out.new ≡ out.old ++ line_of (codes "act" ∷ spell_act act.now ∷ [])) }
{
    out.append(b"act ")?;
    act.write(out)?;
    out.append(b"\n")
}

fn write_height(out: &mut Bytes, height: Option<u32>) -> Result<(), Memory>
    ensures { OnOk result (out.new ≡ out.old ++ option_map_or (λ n. line_of (codes "height" ∷ spell_decimal n ∷ [])) height []) }
{
    let Some(height) = height else {
        return Ok(());
    };
    write_decimal_line(out, b"height", u64::from(height))
}

fn write_outcome(out: &mut Bytes, verdict: &Verdict) -> Result<(), Memory>
    ensures { OnOk result (out.new ≡ out.old ++ line_of (codes "verdict" ∷ spell_verdict verdict.now ∷ [])) }
{
    out.append(b"verdict ")?;
    write_verdict(out, verdict)?;
    out.append(b"\n")
}
