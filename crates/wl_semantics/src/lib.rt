//! The definition of evaluation, over plain trees.
#![tactic(auto)]
