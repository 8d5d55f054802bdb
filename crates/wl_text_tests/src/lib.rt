//! Tests of texts: of scanning, reading and printing.
#![tactic(auto)]

#[cfg(test)]
mod form;
#[cfg(test)]
mod reading_back;
#[cfg(test)]
mod scan;
#[cfg(test)]
mod syntax;
