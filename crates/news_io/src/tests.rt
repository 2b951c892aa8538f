//! The doubles and the adapters, each through its trait.
mod files;
mod keepers;
mod links;
mod streams;

use std::alloc::{AllocError, Global};

/// The numbers of calls that are to fail.
pub(crate) fn numbers(alloc: Global, calls: &[u64]) -> Result<Vec<u64>, AllocError> {
    calls.to_vec(alloc)
}
