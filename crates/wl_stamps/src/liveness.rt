//! When a stamp still holds.
ghost use Rattle.std.specs.Prelude.{◌↔◌, IsTrue, length};
ghost use Rattle.std.specs.List.{All};
ghost use Rattle.wl_ports.specs.Counted.{TicksAtMost};
ghost use Rattle.wl_rules.specs.Stored.{IsIndex};
ghost use Rattle.wl_stamps.specs.Live.{IsLive, IsLiveRead};

use wl_expr::Stamp;
use wl_ports::{Ledger, Work};
use wl_rules::Store;

/// Whether each name of the stamp still has the version that was read, below the last number of the counter. The indexes of
/// the stamp are those that `index_of` of this store gave.
pub fn live<L: Ledger>(stamp: &Stamp, store: &Store, work: &mut Work<L>) -> bool
    requires { All (λ r. IsIndex r.0 store.now) stamp.now.reads }
    ensures live { IsTrue result ↔ IsLive store.now stamp.now }
    ensures ticks { TicksAtMost (length stamp.now.reads) work.old work.new }
{
    for k in 0..stamp.reads.len() {
        let Some((index, version)) = stamp.reads.at(k) else {
            unreachable!()
        };
        if !is_live_read(store, index, version, work) {
            return false;
        }
    }
    true
}

/// Whether the name of this index still has this version, below the last number.
fn is_live_read<L: Ledger>(store: &Store, index: u64, version: u64, work: &mut Work<L>) -> bool
    requires { IsIndex index store.now }
    ensures live { IsTrue result ↔ IsLiveRead store.now (index, version) }
    ensures ticks { TicksAtMost 1 work.old work.new }
{
    let is_same = store.version(index, work) == version;
    is_same && version != u64::MAX
}
