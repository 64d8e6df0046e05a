//! A content of 70,001 octets under each algorithm, in pieces, and back.
use crate::ciphers_tests::content::{expect_opening, seal};
use ciphers::ContentAlg;
use std::alloc::{AllocError, Global};
use std::process::Abort;
use std::test::Fail;

const CEK: [u8; 64] = [5; 64];

const IV: [u8; 16] = [9; 16];

const AAD: &[u8; 15] = b"additional data";

// Octets of which few follow another as they do elsewhere.
fn content(alloc: Global) -> Result<Vec<u8>, AllocError> {
    let mut octets = Vec::new(alloc);
    for i in 0..70_001_u32 {
        octets.push((i % 251) as u8)?;
    }
    Ok(octets)
}

// What was sealed in pieces opens as a whole.
fn expect_both_ways(
    rt: &impl Abort,
    alloc: Global,
    alg: ContentAlg,
    cek: &[u8],
    iv: &[u8],
) -> Result<(), AllocError> {
    let content = content(alloc)?;
    let (mut text, tag) = seal(rt, alloc, alg, cek, iv, AAD, &content, 999)?;
    let answer = Some(content.len());
    expect_opening(rt, alg, cek, iv, AAD, &mut text, &tag, answer, &content);
    Ok(())
}

#[test]
fn long_content_by_a128cbc_hs256(rt: HostRuntime) -> Result<(), Fail> {
    expect_both_ways(&rt, rt.alloc(), ContentAlg::A128CbcHs256, &CEK[..32], &IV)?;
    Ok(())
}

#[test]
fn long_content_by_a192cbc_hs384(rt: HostRuntime) -> Result<(), Fail> {
    expect_both_ways(&rt, rt.alloc(), ContentAlg::A192CbcHs384, &CEK[..48], &IV)?;
    Ok(())
}

#[test]
fn long_content_by_a256cbc_hs512(rt: HostRuntime) -> Result<(), Fail> {
    expect_both_ways(&rt, rt.alloc(), ContentAlg::A256CbcHs512, &CEK, &IV)?;
    Ok(())
}

#[test]
fn long_content_by_a128gcm(rt: HostRuntime) -> Result<(), Fail> {
    expect_both_ways(&rt, rt.alloc(), ContentAlg::A128Gcm, &CEK[..16], &IV[..12])?;
    Ok(())
}

#[test]
fn long_content_by_a192gcm(rt: HostRuntime) -> Result<(), Fail> {
    expect_both_ways(&rt, rt.alloc(), ContentAlg::A192Gcm, &CEK[..24], &IV[..12])?;
    Ok(())
}

#[test]
fn long_content_by_a256gcm(rt: HostRuntime) -> Result<(), Fail> {
    expect_both_ways(&rt, rt.alloc(), ContentAlg::A256Gcm, &CEK[..32], &IV[..12])?;
    Ok(())
}
