//! Tests of the crate `tools`, by its public calls. They stand apart from it, since a crate with tests of its own is proved twice.
#![tactic(auto)]

#[cfg(test)]
mod commands;
#[cfg(test)]
mod files;
#[cfg(test)]
mod looks;
