//! CBC, counter mode, GHASH and GCM (SP 800-38A, SP 800-38D).
mod gcm;
mod long;
mod pieces;
mod products;
