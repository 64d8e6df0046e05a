//! Tests of the crates from `octets` to `tokens`, by their public calls. A crate with tests of its own would be proved twice, so they are here, in a
//! folder for each crate. Their expected values come from the standards or from other programs, and each file says which.
#![tactic(auto)]

#[cfg(test)]
mod aes_tests;
#[cfg(test)]
mod ciphers_tests;
#[cfg(test)]
mod expected;
#[cfg(test)]
mod keys_tests;
#[cfg(test)]
mod modes_tests;
#[cfg(test)]
mod objects_tests;
#[cfg(test)]
mod octets_tests;
#[cfg(test)]
mod prf_tests;
#[cfg(test)]
mod tokens_tests;
