//! The page that an expression is written on: one text, or boxes.
ghost use Rattle.std.specs.Prelude.{◌≡◌, ℕ, decimal, true, IfOk, OnOk, option_map, string_bytes, List, [], ◌∷◌, Some, None};
ghost use Rattle.wl_expr.specs.Stamped.{Stamped, plain, text as stamped_text};
ghost use Rattle.wl_form.specs.Pages as pages;
ghost use Rattle.wl_form.specs.Shown.{number_text, quoted};
ghost use Rattle.wl_form.specs.Table.{opposite};
ghost use Rattle.wl_ports.specs.Name.{IsName};

use crate::words::{write_digits, write_number, write_opposite, write_quoted};
use std::alloc::Global;
use std::marker::Model;
use std::mem;
use wl_exact::Num;
use wl_expr::{Expr, ExprFault};
use wl_ports::Memory;

#[derive(Clone, Copy)]
enum Kind {
    Text,
    Boxes,
    Large,
}

/// A row of boxes under way: its parts, and the text behind the last one.
#[derive(Drop)]
struct Line {
    parts: Vec<Expr>,
    text: String,
}

impl Model for Line {
    ghost use Rattle.std.specs.Prelude.{string_bytes};
    ghost use Rattle.wl_form.specs.Pages.{Line, line_code};

    ghost Value = { Line };

    ghost coded = { line_code };

    ghost view = { λ l. record { parts = l.parts.items; text = string_bytes l.text } };
}

/// One text; or the row under way and those around it, the innermost last; or boxes that don't fit.
#[derive(Drop)]
pub(crate) struct Page {
    kind: Kind,
    parts: Vec<Expr>,
    text: String,
    around: Vec<Line>,
}

impl Model for Page {
    ghost use Rattle.std.specs.Prelude.{string_bytes};
    ghost use Rattle.wl_form.specs.Pages.{Page, page_code, page_of};

    ghost Value = { Page };

    ghost coded = { page_code };

    ghost view = { λ p. page_of p.kind p.parts.items (string_bytes p.text) p.around.items };
}

// None stands for what doesn't fit.

fn text_box(alloc: Global, text: &str) -> Result<Option<Expr>, Memory>
    ensures { IfOk result (λ o. o ≡ pages.fitted (stamped_text text.now)) }
{
    match Expr::text(alloc, text) {
        Ok(made) => Ok(Some(made)),
        Err(ExprFault::Large) => Ok(None),
        Err(ExprFault::Memory) => Err(Memory),
    }
}

fn named_box(alloc: Global, name: &str, args: &[Expr]) -> Result<Option<Expr>, Memory>
    requires { IsName name.now }
    ensures { IfOk result (λ o. o ≡ pages.fitted (pages.named_node name.now args.now)) }
{
    let head = match Expr::symbol(alloc, name) {
        Ok(head) => head,
        Err(ExprFault::Large) => return Ok(None),
        Err(ExprFault::Memory) => return Err(Memory),
    };
    match Expr::node(alloc, &head, args) {
        Ok(made) => Ok(Some(made)),
        Err(ExprFault::Large) => Ok(None),
        Err(ExprFault::Memory) => Err(Memory),
    }
}

/// The parts and the string of the text behind them, if there is text.
fn parted(alloc: Global, parts: Vec<Expr>, text: &str) -> Result<Option<Vec<Expr>>, Memory>
    ensures { IfOk result (λ o. option_map (λ v. v.items) o ≡ pages.all_parts parts.items text.now) }
{
    let mut parts = parts;
    if text.is_empty() {
        return Ok(Some(parts));
    }
    match text_box(alloc, text)? {
        Some(string) => {
            parts.push(string)?;
            Ok(Some(parts))
        }
        None => Ok(None),
    }
}

/// The box of a row.
fn boxed(alloc: Global, line: Line) -> Result<Option<Expr>, Memory>
    ensures { IfOk result (λ o. o ≡ pages.fitted (pages.finished line)) }
{
    let Line { parts, text } = line;
    if parts.is_empty() {
        return Ok(text_box(alloc, text.as_str())?);
    }
    let Some(parts) = parted(alloc, parts, text.as_str())? else {
        return Ok(None);
    };
    let Some(list) = named_box(alloc, "List", &parts)? else {
        return Ok(None);
    };
    Ok(named_box(alloc, "RowBox", &[list])?)
}

/// A row with one more box, behind the string of its text.
fn with_box(alloc: Global, line: Line, made: Expr) -> Result<Option<Line>, Memory>
    requires { pages.fits (plain made) ≡ true }
    ensures { IfOk result (λ o. o ≡ pages.with_box line made) }
{
    let Line { parts, text } = line;
    let Some(parts) = parted(alloc, parts, text.as_str())? else {
        return Ok(None);
    };
    let mut parts = parts;
    parts.push(made)?;
    let text = String::new(alloc);
    Ok(Some(Line { parts, text }))
}

/// A row with the box of another one.
fn with_row(alloc: Global, outer: Line, inner: Line) -> Result<Option<Line>, Memory>
    ensures { IfOk result (λ o. o ≡ pages.with_box outer (pages.finished inner)) }
{
    match boxed(alloc, inner)? {
        Some(made) => Ok(with_box(alloc, outer, made)?),
        None => Ok(None),
    }
}

impl Page {
    /// An empty page for a text.
    pub(crate) fn for_text(alloc: Global) -> Page
        ensures { result ≡ pages.writing [] }
    {
        Page::new(alloc, Kind::Text)
    }

    /// An empty page for boxes.
    pub(crate) fn for_boxes(alloc: Global) -> Page
        ensures { result ≡ pages.boxing pages.blank_line [] }
    {
        Page::new(alloc, Kind::Boxes)
    }

    fn new(alloc: Global, kind: Kind) -> Page
        ensures { result ≡ pages.page_of kind [] [] [] }
    {
        Page {
            kind,
            parts: Vec::new(alloc),
            text: String::new(alloc),
            around: Vec::new(alloc),
        }
    }

    #[tactic(auto, using(crate::proofs::Pages::more_text))]
    pub(crate) fn push_str(&mut self, text: &str) -> Result<(), Memory>
        ensures { OnOk result (self.new ≡ pages.put_text self.old text.now) }
    {
        Ok(self.text.push_str(text)?)
    }

    #[tactic(auto, using(crate::proofs::Pages::more_text))]
    pub(crate) fn push_number(&mut self, alloc: Global, n: Num) -> Result<(), Memory>
        ensures { OnOk result (self.new ≡ pages.put_text self.old (number_text n)) }
    {
        Ok(write_number(alloc, &mut self.text, n)?)
    }

    #[tactic(auto, using(crate::proofs::Pages::more_text))]
    pub(crate) fn push_opposite(&mut self, alloc: Global, n: Num) -> Result<(), Memory>
        ensures { OnOk result (self.new ≡ pages.put_text self.old (number_text (opposite n))) }
    {
        Ok(write_opposite(alloc, &mut self.text, n)?)
    }

    #[tactic(auto, using(crate::proofs::Pages::more_text))]
    pub(crate) fn push_digits(&mut self, alloc: Global, n: u128) -> Result<(), Memory>
        ensures { OnOk result (self.new ≡ pages.put_text self.old (decimal n)) }
    {
        Ok(write_digits(alloc, &mut self.text, n)?)
    }

    #[tactic(auto, using(crate::proofs::Pages::more_text))]
    pub(crate) fn push_quoted(&mut self, text: &str) -> Result<(), Memory>
        ensures { OnOk result (self.new ≡ pages.put_text self.old (quoted text.now)) }
    {
        Ok(write_quoted(&mut self.text, text)?)
    }

    /// A row within the row under way begins.
    pub(crate) fn open(&mut self, alloc: Global) -> Result<(), Memory>
        ensures { OnOk result (self.new ≡ pages.opened self.old) }
    {
        let Kind::Boxes = self.kind else {
            return Ok(());
        };
        let parts = mem::replace(&mut self.parts, Vec::new(alloc));
        let text = mem::replace(&mut self.text, String::new(alloc));
        self.around.push(Line { parts, text })?;
        Ok(())
    }

    /// The row under way becomes a box of the one around it.
    pub(crate) fn close(&mut self, alloc: Global) -> Result<(), Memory>
        ensures { OnOk result (pages.Closes self.old self.new) }
    {
        let Kind::Boxes = self.kind else {
            return Ok(());
        };
        let Some(outer) = self.around.pop() else {
            return Ok(());
        };
        let parts = mem::replace(&mut self.parts, Vec::new(alloc));
        let text = mem::replace(&mut self.text, String::new(alloc));
        match with_row(alloc, outer, Line { parts, text })? {
            Some(Line { parts, text }) => {
                self.parts = parts;
                self.text = text;
            }
            None => self.kind = Kind::Large,
        }
        Ok(())
    }

    /// The text.
    pub(crate) fn into_text(self) -> String
        ensures { (w : List ℕ) → self ≡ pages.writing w → string_bytes result ≡ w }
    {
        self.text
    }

    /// The only box; none where it didn't fit.
    pub(crate) fn into_box(self) -> Option<Expr>
        ensures fits { (b : Stamped) → self ≡ pages.boxing record { parts = b ∷ []; text = [] } [] → result ≡ Some b }
        ensures too_large { self ≡ pages.large → result ≡ None }
    {
        let mut parts = self.parts;
        match self.kind {
            Kind::Large => None,
            _ => parts.pop(),
        }
    }
}
