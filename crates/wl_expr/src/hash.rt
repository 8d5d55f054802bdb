//! The hash of a tree, from the hashes of its parts.
ghost use Rattle.std.specs.Prelude.{◌≡◌, fold};
ghost use Rattle.wl_expr.specs.Hash.{mixed, mixed_wide, mixed_trees, number_hash, tree_hash};
ghost use Rattle.wl_expr.specs.Stamped.{plain, plains, from_list};
ghost use Rattle.wl_expr.specs.Tree as tree;

use crate::expr::Expr;
use wl_exact::Num;

fn mixed(hash: u64, part: u64) -> u64
    ensures { result ≡ mixed hash part }
{
    let product = (hash ^ part).wrapping_mul(0x4528_21E6_38D0_1377);
    product ^ (product >> 32)
}

fn mixed_wide(hash: u64, n: u128) -> u64
    ensures { result ≡ mixed_wide hash n }
{
    let low = (n & 0xFFFF_FFFF_FFFF_FFFF) as u64;
    let high = (n >> 64) as u64;
    mixed(mixed(hash, low), high)
}

fn mixed_bytes(hash: u64, bytes: &[u8]) -> u64
    ensures { result ≡ fold mixed hash bytes.now }
{
    let mut hash = hash;
    for byte in bytes {
        hash = mixed(hash, *byte as u64);
    }
    hash
}

pub fn number_hash(n: Num) -> u64
    ensures { result ≡ number_hash n }
{
    let sign = if n.num() < 0 { 1 } else { 0 };
    let numerator = mixed_wide(mixed(0x082E_FA98_EC4E_6C89, sign), n.num().unsigned_abs());
    mixed_wide(numerator, n.den().unsigned_abs())
}

pub fn text_hash(text: &str) -> u64
    ensures { result ≡ tree_hash (tree.text text.now) }
{
    mixed_bytes(0x243F_6A88_85A3_08D3, text.as_bytes())
}

pub fn symbol_hash(name: &str) -> u64
    ensures { result ≡ tree_hash (tree.symbol name.now) }
{
    mixed_bytes(0x1319_8A2E_0370_7344, name.as_bytes())
}

pub fn node_hash(head: &Expr, args: &[Expr]) -> u64
    ensures { result ≡ tree_hash (tree.node (plain head.now) (plains (from_list args.now))) }
{
    let mut hash = mixed(0xA409_3822_299F_31D0, head.tree_hash());
    for arg in args {
        hash = mixed(hash, arg.tree_hash());
    }
    hash
}
