//! A content of 70,001 octets under a toy cipher: in long pieces and in short ones, and back.
use crate::expected::{expect_octets, expect_same};
use crate::modes_tests::gcm::gcm;
use crate::modes_tests::pieces::{Toy, cbc, ctr, ghash};
use modes::{cbc_open, gcm_open};
use std::alloc::{AllocError, Global};
use std::test::Fail;

const IV: [u8; 16] = [9; 16];

const GCM_IV: [u8; 12] = [9; 12];

// Octets in which few pairs of neighbours repeat.
fn content(alloc: Global) -> Result<Vec<u8>, AllocError> {
    let mut octets = Vec::new(alloc);
    for i in 0..70_001_u32 {
        octets.push((i % 251) as u8)?;
    }
    Ok(octets)
}

#[test]
fn cbc_of_a_long_content(rt: HostRuntime) -> Result<(), Fail> {
    let content = content(rt.alloc())?;
    let mut whole = cbc(&rt, rt.alloc(), Toy::new(), &IV, &content, 4096)?;
    expect_same(&rt, whole.len(), 70_016, "the length");
    let pieces = cbc(&rt, rt.alloc(), Toy::new(), &IV, &content, 999)?;
    expect_octets(&rt, &pieces, &whole);
    let opened = cbc_open(&Toy::new(), &IV, &mut whole);
    expect_same(&rt, opened, Some(70_001), "opening");
    assert!(rt; whole.starts_with(&content));
    Ok(())
}

#[test]
fn counter_mode_of_a_long_content(rt: HostRuntime) -> Result<(), Fail> {
    let content = content(rt.alloc())?;
    let whole = ctr(&rt, rt.alloc(), Toy::new(), &IV, &content, 4096)?;
    let pieces = ctr(&rt, rt.alloc(), Toy::new(), &IV, &content, 999)?;
    expect_octets(&rt, &pieces, &whole);
    let back = ctr(&rt, rt.alloc(), Toy::new(), &IV, &whole, 4001)?;
    expect_octets(&rt, &back, &content);
    Ok(())
}

#[test]
fn ghash_of_a_long_content(rt: HostRuntime) -> Result<(), Fail> {
    let content = content(rt.alloc())?;
    let whole = ghash(&rt, &IV, &content, 70_001);
    expect_octets(&rt, &ghash(&rt, &IV, &content, 999), &whole);
    Ok(())
}

#[test]
fn gcm_of_a_long_content(rt: HostRuntime) -> Result<(), Fail> {
    let content = content(rt.alloc())?;
    let aad = b"additional data";
    let (mut whole, tag) = gcm(&rt, rt.alloc(), Toy::new(), &GCM_IV, aad, &content, 4096)?;
    let (pieces, other) = gcm(&rt, rt.alloc(), Toy::new(), &GCM_IV, aad, &content, 999)?;
    expect_octets(&rt, &pieces, &whole);
    expect_octets(&rt, &other, &tag);
    let opened = gcm_open(&Toy::new(), &GCM_IV, aad, &mut whole, &tag);
    expect_same(&rt, opened, Some(70_001), "opening");
    expect_octets(&rt, &whole, &content);
    Ok(())
}
