//! Definitions of pools, and their pages.
use crate::images::block;
use std::alloc::{AllocError, Global};

/// A definition of a pool: its number, how many pages it has, and their size.
pub fn pool_definition(
    alloc: Global,
    pool: u8,
    count: u32,
    size: u32,
) -> Result<Vec<u8>, AllocError> {
    let mut payload = Vec::from_slice(alloc, &[pool, 0])?;
    payload.extend_from_slice(&count.to_le_bytes())?;
    payload.extend_from_slice(&size.to_le_bytes())?;
    block(alloc, b"CPDF", &payload)
}

/// A page of a pool, under the mask 0.
pub fn page(alloc: Global, pool: u8, index: u32, bytes: &[u8]) -> Result<Vec<u8>, AllocError> {
    let mut payload = Vec::from_slice(alloc, &[pool, 0])?;
    payload.extend_from_slice(&index.to_le_bytes())?;
    payload.push(0)?;
    payload.extend_from_slice(bytes)?;
    block(alloc, b"CPPG", &payload)
}
