//! Base64url, devices, refusals, and calls on whole octet strings.
mod base64url;
mod calls;
mod devices;
mod inputs_and_outputs;
mod refusals;
mod sums;
mod whole;
