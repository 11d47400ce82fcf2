//! What is printed of the items, and the status that they make.
ghost use Rattle.std.specs.Prelude.{◌≡◌, ◌++◌, IfOk, OnOk};
ghost use Rattle.std.specs.List.{list_any};
ghost use Rattle.link_intake.specs.ResultsText.{count, is_again, is_new, is_refused, is_waiting, results_status, results_text, refusal_word, refused_line, refused_lines, sum_line};

use crate::item_result::{ItemResult, Refusal};
use std::alloc::Global;
use tg_text::{Bytes, Memory, write_decimal, write_hex};

fn write_refusal(out: &mut Bytes, refusal: &Refusal) -> Result<(), Memory>
    ensures { OnOk result (out.new ≡ out.old ++ refusal_word refusal.now) }
{
    match refusal {
        Refusal::TooLong => out.append(b"TooLong"),
        Refusal::BadText => out.append(b"BadText"),
        Refusal::OtherTeam => out.append(b"OtherTeam"),
        Refusal::BadSignature => out.append(b"BadSignature"),
        Refusal::NameClash { name } => {
            out.append(b"NameClash ")?;
            write_hex(out, name.as_slice())
        }
        Refusal::Full => out.append(b"Full"),
        Refusal::Cut => out.append(b"Cut"),
        Refusal::BadFrame => out.append(b"BadFrame"),
        Refusal::Long => out.append(b"Long"),
    }
}

fn write_if_refused(out: &mut Bytes, number: u64, became: &ItemResult) -> Result<(), Memory>
    ensures { OnOk result (out.new ≡ out.old ++ refused_line number became.now) }
{
    match became {
        ItemResult::Refused(refusal) => {
            write_decimal(out, number)?;
            out.append(b" refused ")?;
            write_refusal(out, refusal)?;
            out.append(b"\n")
        }
        _ => Ok(()),
    }
}

// The first item has the number 1.
fn write_refused(out: &mut Bytes, results: &[ItemResult]) -> Result<(), Memory>
    ensures { OnOk result (out.new ≡ out.old ++ refused_lines 1 results.now) }
{
    let mut number = 0;
    for became in results {
        number += 1;
        write_if_refused(out, number, became)?;
    }
    Ok(())
}

fn is_new(became: &ItemResult) -> bool
    ensures { result ≡ is_new became.now }
{
    matches!(became, ItemResult::New { .. })
}

fn is_waiting(became: &ItemResult) -> bool
    ensures { result ≡ is_waiting became.now }
{
    matches!(became, ItemResult::Waiting)
}

fn is_again(became: &ItemResult) -> bool
    ensures { result ≡ is_again became.now }
{
    matches!(became, ItemResult::Again)
}

fn is_refused(became: &ItemResult) -> bool
    ensures { result ≡ is_refused became.now }
{
    matches!(became, ItemResult::Refused(_))
}

fn count_new(results: &[ItemResult]) -> usize
    ensures { result ≡ count is_new results.now }
{
    results.iter().filter(|became| is_new(became)).count()
}

fn count_waiting(results: &[ItemResult]) -> usize
    ensures { result ≡ count is_waiting results.now }
{
    results.iter().filter(|became| is_waiting(became)).count()
}

fn count_again(results: &[ItemResult]) -> usize
    ensures { result ≡ count is_again results.now }
{
    results.iter().filter(|became| is_again(became)).count()
}

fn count_refused(results: &[ItemResult]) -> usize
    ensures { result ≡ count is_refused results.now }
{
    results.iter().filter(|became| is_refused(became)).count()
}

fn write_sum(alloc: Global, out: &mut Bytes, results: &[ItemResult]) -> Result<(), Memory>
    ensures { OnOk result (out.new ≡ out.old ++ sum_line results.now) }
{
    let new = count_new(results);
    let waiting = count_waiting(results);
    let again = count_again(results);
    let refused = count_refused(results);
    let line = format!(in alloc; "new {new} waiting {waiting} again {again} refused {refused}\n")?;
    out.append(line.as_bytes())
}

/// What is printed of what became of the items.
pub fn results_text(alloc: Global, results: &[ItemResult]) -> Result<Bytes, Memory>
    ensures { IfOk result (λ text. text ≡ results_text results.now) }
{
    let mut out = Bytes::new(alloc);
    write_refused(&mut out, results)?;
    write_sum(alloc, &mut out, results)?;
    Ok(out)
}

fn any_refused(results: &[ItemResult]) -> bool
    ensures { result ≡ list_any is_refused results.now }
{
    results.iter().any(|became| is_refused(became))
}

/// 1 where an item is refused, else 0.
pub fn results_status(results: &[ItemResult]) -> u8
    ensures { result ≡ results_status results.now }
{
    if any_refused(results) { 1 } else { 0 }
}
