//! The desk.
ghost use Rattle.std.specs.Prelude.{◌≡◌, ◌+◌, ◌-◌, ◌<◌, ◌≤◌, ◌++◌, [], ◌∷◌, OnOk, OnErr, map, string_bytes, vec_len, vec_capacity};
ghost use Rattle.wl_expr.specs.Stamped.{plain};
ghost use Rattle.wl_ports.specs.Counted.{TicksAtMost};
ghost use Rattle.wl_rules.specs.Stored.{definitions};
ghost use Rattle.wl_desk.specs.Consulted.{IsConsulted};
ghost use Rattle.wl_desk.specs.Desk.{count_of, issued, new_desk, printed, refilled, shown, shown_again, with_heard, with_quiets};

use crate::item::Item;
use crate::message::{full_name, is_off, message_item, stop_item};
use crate::tally::Tally;
use std::alloc::Global;
use std::marker::Model;
use wl_expr::Expr;
use wl_ports::{Ledger, Memory, Work};
use wl_rules::{EntryView, Store};

/// How often a message is shown in one cell.
const MOST_SHOWN: u8 = 3;

/// What a cell shows, and whether a message was issued.
#[derive(Drop)]
pub struct Desk {
    alloc: Global,
    quiets: u16,
    heard: bool,
    counts: Tally,
    items: Vec<Item>,
}

impl Model for Desk {
    ghost use Rattle.wl_desk.specs.Desk.{Desk};
    ghost use Rattle.wl_desk.specs.DeskCode.{desk_code};

    ghost Value = { Desk };

    ghost coded = { desk_code };

    ghost view = { λ k. record {
      quiets = k.quiets;
      heard = k.heard;
      counts = k.counts;
      items = k.items.items;
    } };
}

/// Puts a text behind the items, where there is room for it.
fn put(items: &mut Vec<Item>, text: String)
    requires { vec_len items.old < vec_capacity items.old }
    ensures items { items.new.items ≡ items.old.items ++ string_bytes text ∷ [] }
    ensures len { vec_len items.new ≡ vec_len items.old + 1 }
    ensures capacity { vec_capacity items.old ≤ vec_capacity items.new }
{
    match items.push(Item::new(text)) {
        Ok(()) => {}
        Err(_) => unreachable!(),
    }
}

impl Desk {
    /// Nothing shown, nothing heard, and no Quiet.
    pub fn new(alloc: Global) -> Desk
        ensures { result ≡ new_desk }
    {
        Desk {
            alloc,
            quiets: 0,
            heard: false,
            counts: Tally::new(alloc),
            items: Vec::new(alloc),
        }
    }

    /// Begins a cell: forgets the items and how often each message was shown.
    pub fn refill(&mut self)
        ensures { self.new ≡ refilled self.old }
    {
        self.counts.clear();
        self.items.clear();
    }

    /// What was shown in this cell, in order.
    pub fn items(&self) -> &[Item]
        ensures { result.now ≡ self.now.items }
    {
        self.items.as_slice()
    }

    /// Issues a message `symbol::tag`. One that is off does nothing, and inside a Quiet one is heard alone. Any other is
    /// shown, three times in a cell, and then a last item says that it won't be.
    #[tactic(auto, using(crate::proofs::Ticks::ticks_one, crate::proofs::Consulting::off_consulted))]
    pub fn issue<L: Ledger>(
        &mut self,
        store: &Store,
        symbol: &str,
        tag: &str,
        args: &[Expr],
        work: &mut Work<L>,
    ) -> Result<(), Memory>
        ensures ok { OnOk result
            (self.new ≡ issued (definitions store.now) symbol.now tag.now (map plain args.now) self.old) }
        ensures err { OnErr result (self.new ≡ self.old) }
        ensures ticks { TicksAtMost 2 work.old work.new }
    {
        let entry = store.consult(symbol, work);
        if is_off(&entry, tag) {
            return Ok(());
        }
        if self.quiets > 0 {
            self.heard = true;
            return Ok(());
        }
        self.show_again(store, &entry, symbol, tag, args, work)?;
        self.heard = true;
        Ok(())
    }

    /// Shows a message where it was shown fewer than three times.
    #[tactic(auto, using(crate::proofs::Ticks::ticks_none))]
    fn show_again<L: Ledger>(
        &mut self,
        store: &Store,
        entry: &Option<EntryView<'_>>,
        symbol: &str,
        tag: &str,
        args: &[Expr],
        work: &mut Work<L>,
    ) -> Result<(), Memory>
        requires { IsConsulted symbol.now store.now entry.now }
        ensures ok { OnOk result
            (self.new ≡ shown_again (definitions store.now) symbol.now tag.now (map plain args.now) self.old) }
        ensures err { OnErr result (self.new ≡ self.old) }
        ensures ticks { TicksAtMost 1 work.old work.new }
    {
        let name = full_name(self.alloc, symbol, tag)?;
        if self.counts.count_of(name.as_str()) >= MOST_SHOWN {
            return Ok(());
        }
        let item = message_item(self.alloc, store, entry, symbol, tag, args, work)?;
        Ok(self.show(name, item)?)
    }

    /// Shows a message of this full name, and behind the third one that there will be no more.
    fn show(&mut self, name: String, item: String) -> Result<(), Memory>
        requires { count_of (string_bytes name) self.old.counts < 3 }
        ensures ok { OnOk result (self.new ≡ shown (string_bytes name) (string_bytes item) self.old) }
        ensures err { OnErr result (self.new ≡ self.old) }
    {
        if self.counts.count_of(name.as_str()) + 1 < MOST_SHOWN {
            self.items.reserve(1)?;
            self.counts.count(name)?;
            put(&mut self.items, item);
            return Ok(());
        }
        let stop = stop_item(self.alloc, name.as_str())?;
        self.items.reserve(2)?;
        self.counts.count(name)?;
        put(&mut self.items, item);
        put(&mut self.items, stop);
        Ok(())
    }

    /// Shows a text.
    pub fn print(&mut self, text: &str) -> Result<(), Memory>
        ensures ok { OnOk result (self.new ≡ printed text.now self.old) }
        ensures err { OnErr result (self.new ≡ self.old) }
    {
        let text = String::from_str(self.alloc, text)?;
        self.items.push(Item::new(text))?;
        Ok(())
    }

    /// Opens a Quiet.
    pub fn quiet(&mut self)
        requires { self.old.quiets < 1000 }
        ensures { self.new ≡ with_quiets (self.old.quiets + 1) self.old }
    {
        self.quiets += 1;
    }

    /// Closes a Quiet.
    pub fn unquiet(&mut self)
        requires { 0 < self.old.quiets }
        ensures { self.new ≡ with_quiets (self.old.quiets - 1) self.old }
    {
        self.quiets -= 1;
    }

    /// Whether a message that isn't off was issued since `set_heard(false)`.
    pub fn heard(&self) -> bool
        ensures { result ≡ self.now.heard }
    {
        self.heard
    }

    /// Notes that one was issued, or that none was.
    pub fn set_heard(&mut self, heard: bool)
        ensures { self.new ≡ with_heard heard self.old }
    {
        self.heard = heard;
    }
}
