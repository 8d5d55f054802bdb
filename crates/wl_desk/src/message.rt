//! The items of a message.
ghost use Rattle.std.specs.Prelude.{◌≡◌, ◌++◌, IfOk, OnOk, map, option_map, string_bytes, unwrap_or};
ghost use Rattle.wl_expr.specs.Stamped.{plain};
ghost use Rattle.wl_ports.specs.Counted.{TicksAtMost};
ghost use Rattle.wl_rules.specs.Stored.{definitions};
ghost use Rattle.wl_desk.specs.Consulted.{IsConsulted, is_off_in, message_in};
ghost use Rattle.wl_desk.specs.Desk.{full_name, general_text, message_item, stop_item};
ghost use Rattle.wl_desk.specs.MessageText.{filled_text};

use crate::text::fill;
use std::alloc::Global;
use wl_expr::Expr;
use wl_ports::{Ledger, Memory, Work};
use wl_rules::{EntryView, Store};

const NOT_FOUND: &str = "-- Message text not found --";

/// `s::t`.
pub(crate) fn full_name(alloc: Global, symbol: &str, tag: &str) -> Result<String, Memory>
    ensures { IfOk result (λ n. string_bytes n ≡ full_name symbol.now tag.now) }
{
    let mut name = String::from_str(alloc, symbol)?;
    name.push_str("::")?;
    name.push_str(tag)?;
    Ok(name)
}

/// Whether the message is off, by what the store has of its symbol.
pub(crate) fn is_off(entry: &Option<EntryView<'_>>, tag: &str) -> bool
    ensures { result ≡ is_off_in tag.now entry.now }
{
    match entry {
        Some(entry) => entry.is_off(tag),
        None => false,
    }
}

/// The text of the message, by what the store has of its symbol.
fn stored<'a>(entry: &'a Option<EntryView<'_>>, tag: &str) -> Option<&'a str>
    ensures { option_map (λ t. t.now) result ≡ message_in tag.now entry.now }
{
    match entry {
        Some(entry) => entry.message(tag),
        None => None,
    }
}

/// Puts the text of the message with its arguments behind what is there.
#[tactic(auto, using(crate::proofs::Ticks::ticks_none))]
fn push_text<L: Ledger>(
    alloc: Global,
    out: &mut String,
    store: &Store,
    entry: &Option<EntryView<'_>>,
    tag: &str,
    args: &[Expr],
    work: &mut Work<L>,
) -> Result<(), Memory>
    ensures text { OnOk result (string_bytes out.new ≡ string_bytes out.old
        ++ filled_text (unwrap_or (message_in tag.now entry.now) (general_text (definitions store.now) tag.now)) (map plain args.now)) }
    ensures ticks { TicksAtMost 1 work.old work.new }
{
    if let Some(text) = stored(entry, tag) {
        return Ok(fill(alloc, out, text, args)?);
    }
    let general = store.consult("General", work);
    match stored(&general, tag) {
        Some(text) => Ok(fill(alloc, out, text, args)?),
        None => Ok(fill(alloc, out, NOT_FOUND, args)?),
    }
}

/// `s::t: text`.
#[tactic(auto, using(crate::proofs::Ticks::ticks_none, crate::proofs::Consulting::message_consulted))]
pub(crate) fn message_item<L: Ledger>(
    alloc: Global,
    store: &Store,
    entry: &Option<EntryView<'_>>,
    symbol: &str,
    tag: &str,
    args: &[Expr],
    work: &mut Work<L>,
) -> Result<String, Memory>
    requires { IsConsulted symbol.now store.now entry.now }
    ensures item { IfOk result (λ i. string_bytes i ≡ message_item (definitions store.now) symbol.now tag.now (map plain args.now)) }
    ensures ticks { TicksAtMost 1 work.old work.new }
{
    let mut item = full_name(alloc, symbol, tag)?;
    item.push_str(": ")?;
    push_text(alloc, &mut item, store, entry, tag, args, work)?;
    Ok(item)
}

/// What is shown right behind the third message of a name.
pub(crate) fn stop_item(alloc: Global, name: &str) -> Result<String, Memory>
    ensures { IfOk result (λ i. string_bytes i ≡ stop_item name.now) }
{
    let mut item = String::from_str(alloc, "General::stop: Further output of ")?;
    item.push_str(name)?;
    item.push_str(" will be suppressed during this calculation.")?;
    Ok(item)
}
