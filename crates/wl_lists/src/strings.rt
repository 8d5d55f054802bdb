//! Strings, and the text and the boxes of expressions.
ghost use Rattle.std.specs.Prelude.{◌≡◌, Err, IfOk, List, chars, encode_utf8, length, string_bytes};
ghost use Rattle.std.specs.List.{flat_map, list_all};
ghost use Rattle.wl_expr.specs.Applied.{gives};
ghost use Rattle.wl_expr.specs.Passed.{IsFrom};
ghost use Rattle.wl_expr.specs.Stamped.{Stamped, plain};
ghost use Rattle.wl_expr.specs.Tree.{AreSmall, from_list, text as tree_text};
ghost use Rattle.wl_expr.specs.Words.{is_text};
ghost use Rattle.wl_form.specs.Boxes.{boxes};
ghost use Rattle.wl_lists.specs.Answers.{AllFrom, IsAnswer, IsMade, IsPassed, trees};
ghost use Rattle.wl_lists.specs.Strings.{bytes_of, character_texts, characters_row, make_boxes_row, string_join_row, string_length_row, to_string_row};

use crate::answer::{give, give_copy, give_form, give_list, give_made, give_whole, stay};
use std::alloc::Global;
use wl_expr::{Applied, Expr, ExprFault, Look};
use wl_form::{boxes, input_form};
use wl_ports::Memory;

pub(crate) fn text(alloc: Global, s: &str) -> Result<Expr, ExprFault>
    ensures made { IsMade (tree_text s.now) result }
    ensures passed { (ms : List Stamped) → IfOk result (IsFrom ms) }
{
    Expr::text(alloc, s)
}

/// Gives the text.
fn give_text(alloc: Global, s: &str) -> Result<Applied, ExprFault>
    ensures answer { IsAnswer (gives (tree_text s.now)) result }
    ensures passed { (ms : List Stamped) → IsPassed ms result }
{
    give_made(text(alloc, s))
}

fn is_text(e: &Expr) -> bool
    ensures { result ≡ is_text (plain e.now) }
{
    match e.view() {
        Look::Text(_) => true,
        _ => false,
    }
}

fn are_texts(args: &[Expr]) -> bool
    ensures { result ≡ list_all is_text (trees args.now) }
{
    for arg in args {
        if !is_text(arg) {
            return false;
        }
    }
    true
}

/// The text that the expression is; of any other none.
fn text_of(e: &Expr) -> &str
    ensures { result.now ≡ bytes_of (plain e.now) }
{
    match e.view() {
        Look::Text(s) => s,
        _ => "",
    }
}

fn joined(alloc: Global, args: &[Expr]) -> Result<String, Memory>
    ensures { IfOk result (λ s. string_bytes s ≡ flat_map bytes_of (trees args.now)) }
{
    let mut all = String::new(alloc);
    for arg in args {
        all.push_str(text_of(arg))?;
    }
    Ok(all)
}

#[tactic(auto, using(crate::proofs::Faults::memory_answers))]
pub(crate) fn string_join_row(alloc: Global, args: &[Expr]) -> Result<Applied, ExprFault>
    ensures answer { IsAnswer (string_join_row (trees args.now)) result }
    ensures passed { (ms : List Stamped) → AllFrom ms args.now → IsPassed ms result }
{
    if !are_texts(args) {
        return stay();
    }
    give_text(alloc, joined(alloc, args)?.as_str())
}

#[tactic(auto, using(crate::proofs::Faults::memory_answers))]
pub(crate) fn to_string_row(alloc: Global, args: &[Expr]) -> Result<Applied, ExprFault>
    ensures answer { IsAnswer (to_string_row (trees args.now)) result }
    ensures passed { (ms : List Stamped) → AllFrom ms args.now → IsPassed ms result }
{
    let [e] = args else {
        return stay();
    };
    match e.view() {
        Look::Text(_) => give_copy(e),
        _ => give_text(alloc, input_form(alloc, e)?.as_str()),
    }
}

fn boxed(alloc: Global, e: &Expr) -> Result<Expr, ExprFault>
    ensures made { IsMade (boxes (plain e.now)) result }
    ensures passed { (ms : List Stamped) → IsFrom ms e.now → IfOk result (IsFrom ms) }
{
    boxes(alloc, e)
}

pub(crate) fn make_boxes_row(alloc: Global, args: &[Expr]) -> Result<Applied, ExprFault>
    ensures answer { IsAnswer (make_boxes_row (trees args.now)) result }
    ensures passed { (ms : List Stamped) → AllFrom ms args.now → IsPassed ms result }
{
    match args {
        [e] => give_made(boxed(alloc, e)),
        _ => stay(),
    }
}

#[tactic(auto, using(std::proofs::lemmas::Str::chars_from_encodes))]
fn count_of_characters(s: &str) -> usize
    ensures { result ≡ length (chars s.now) }
{
    s.chars().count()
}

pub(crate) fn string_length_row(alloc: Global, args: &[Expr]) -> Result<Applied, ExprFault>
    ensures answer { IsAnswer (string_length_row (trees args.now)) result }
    ensures passed { (ms : List Stamped) → AllFrom ms args.now → IsPassed ms result }
{
    let [e] = args else {
        return stay();
    };
    match e.view() {
        Look::Text(s) => give_whole(alloc, count_of_characters(s) as i128),
        _ => stay(),
    }
}

/// The character as a string.
#[tactic(auto, using(crate::proofs::Faults::memory_makes))]
fn character_text(alloc: Global, c: char) -> Result<Expr, ExprFault>
    ensures made { IsMade (tree_text (encode_utf8 c)) result }
    ensures passed { (ms : List Stamped) → IfOk result (IsFrom ms) }
{
    let mut one = String::new(alloc);
    one.push(c)?;
    text(alloc, one.as_str())
}

#[tactic(auto, using(std::proofs::lemmas::Str::chars_from_encodes))]
fn characters(alloc: Global, s: &str) -> Result<Vec<char>, Memory>
    ensures { IfOk result (λ v. v.items ≡ chars s.now) }
{
    Ok(s.chars().collect(alloc)?)
}

fn texts_of(alloc: Global, cs: &[char]) -> Result<Vec<Expr>, ExprFault>
    ensures value { IfOk result (λ v. trees v.items ≡ character_texts cs.now) }
    ensures large { result ≡ Err ExprFault.Large → ¬ AreSmall (from_list (character_texts cs.now)) }
    ensures passed { (ms : List Stamped) → IfOk result (λ v. AllFrom ms v.items) }
{
    let mut all = Vec::with_capacity(alloc, cs.len())?;
    for c in cs {
        let one = character_text(alloc, *c)?;
        all.push(one)?;
    }
    Ok(all)
}

#[tactic(auto, using(crate::proofs::Faults::memory_answers))]
pub(crate) fn characters_row(alloc: Global, args: &[Expr]) -> Result<Applied, ExprFault>
    ensures answer { IsAnswer (characters_row (trees args.now)) result }
    ensures passed { (ms : List Stamped) → AllFrom ms args.now → IsPassed ms result }
{
    let [e] = args else {
        return stay();
    };
    match e.view() {
        Look::Text(s) => give_list(alloc, texts_of(alloc, characters(alloc, s)?.as_slice())),
        _ => stay(),
    }
}
