//! Definitions: entries of rules, attributes and messages by name.
#![tactic(auto)]

mod attribute;
mod entry;
mod fault;
mod form;
mod kept;
mod key;
pub mod laws;
mod rule;
mod rule_list;
mod rule_set;
mod rule_sets;
mod start;
mod store;
mod table;

pub use attribute::{Attribute, Attributes};
pub use fault::StoreFault;
pub use rule::{Rule, RuleKind};
pub use rule_list::RuleList;
pub use store::{EntryView, Saved, Store};
