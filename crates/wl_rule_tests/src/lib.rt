//! Tests of definitions: of rules, attributes and messages in a store.
#![tactic(auto)]

#[cfg(test)]
mod rules;
