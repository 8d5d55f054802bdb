//! `Transpose`.
ghost use Rattle.std.specs.Prelude.{◌≡◌, Err, IfOk, List, length, map, get_or};
ghost use Rattle.std.specs.List.{list_all};
ghost use Rattle.wl_expr.specs.Passed.{IsFrom};
ghost use Rattle.wl_expr.specs.Stamped.{Stamped, plain};
ghost use Rattle.wl_expr.specs.Tree.{AreSmall, from_list};
ghost use Rattle.wl_expr.specs.Words.{elements};
ghost use Rattle.wl_lists.specs.Answers.{AllFrom, IsAnswer, IsMade, IsPassed, trees};
ghost use Rattle.wl_lists.specs.Partitions.{column, is_list_of_length, transpose_row, transposed};
ghost use Rattle.wl_lists.specs.Tabulated.{tabulated};

use crate::answer::{form, give_list, stay};
use crate::element::list_elements;
use crate::joining::elements;
use std::alloc::Global;
use wl_expr::{Applied, Expr, ExprFault};
use wl_ports::Memory;

/// The element of place k of each row.
fn column_of(alloc: Global, rows: &[Expr], k: usize) -> Result<Vec<Expr>, Memory>
    ensures value { IfOk result (λ v. trees v.items ≡ map (λ r. get_or (elements r) k r) (trees rows.now)) }
    ensures passed { (ms : List Stamped) → AllFrom ms rows.now → IfOk result (λ v. AllFrom ms v.items) }
{
    let mut all = Vec::with_capacity(alloc, rows.len())?;
    for row in rows {
        let element = match elements(row).get(k) {
            Some(element) => element,
            None => row,
        };
        all.push(element.copy()?)?;
    }
    Ok(all)
}

fn is_list_of_length(e: &Expr, n: usize) -> bool
    ensures { result ≡ is_list_of_length n (plain e.now) }
{
    match list_elements(e) {
        Some(elements) => elements.len() == n,
        None => false,
    }
}

fn are_lists_of_length(rows: &[Expr], n: usize) -> bool
    ensures { result ≡ list_all (is_list_of_length n) (trees rows.now) }
{
    for row in rows {
        if !is_list_of_length(row, n) {
            return false;
        }
    }
    true
}

/// The column of place k as a list.
#[tactic(auto, using(crate::proofs::Faults::memory_makes))]
fn column(alloc: Global, rows: &[Expr], k: usize) -> Result<Expr, ExprFault>
    ensures made { IsMade (column (trees rows.now) k) result }
    ensures passed { (ms : List Stamped) → AllFrom ms rows.now → IfOk result (IsFrom ms) }
{
    form(alloc, "List", column_of(alloc, rows, k)?.as_slice())
}

/// The columns.
fn columns(alloc: Global, rows: &[Expr], count: usize) -> Result<Vec<Expr>, ExprFault>
    ensures value { IfOk result (λ v. trees v.items ≡ tabulated (column (trees rows.now)) 0 count) }
    ensures large { result ≡ Err ExprFault.Large → ¬ AreSmall (from_list (tabulated (column (trees rows.now)) 0 count)) }
    ensures passed { (ms : List Stamped) → AllFrom ms rows.now → IfOk result (λ v. AllFrom ms v.items) }
{
    let mut all = Vec::new(alloc);
    for k in 0..count {
        let column = column(alloc, rows, k)?;
        all.push(column)?;
    }
    Ok(all)
}

/// Gives the columns of rows of one length from 1 up.
fn give_columns(alloc: Global, rows: &[Expr]) -> Result<Applied, ExprFault>
    ensures answer { IsAnswer (transposed (trees rows.now)) result }
    ensures passed { (ms : List Stamped) → AllFrom ms rows.now → IsPassed ms result }
{
    let [first, ..] = rows else {
        return stay();
    };
    let count = elements(first).len();
    if count == 0 || !are_lists_of_length(rows, count) {
        return stay();
    }
    give_list(alloc, columns(alloc, rows, count))
}

pub(crate) fn transpose_row(alloc: Global, args: &[Expr]) -> Result<Applied, ExprFault>
    ensures answer { IsAnswer (transpose_row (trees args.now)) result }
    ensures passed { (ms : List Stamped) → AllFrom ms args.now → IsPassed ms result }
{
    let [e] = args else {
        return stay();
    };
    match list_elements(e) {
        Some(rows) => give_columns(alloc, rows),
        None => stay(),
    }
}
