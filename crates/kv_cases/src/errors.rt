// Why a case has no answer.

use kv_syn::NoMemory;
use std::alloc::{AllocError, AllocFailed};
use thiserror::Error;

/// Why a case has no answer.
#[derive(Clone, Copy, Debug, PartialEq, Eq, Error)]
pub enum CaseError {
    /// No case is spelled so.
    #[error("no such case")]
    Unknown,
    #[error("no memory")]
    NoMemory,
}

impl From<NoMemory> for CaseError {
    fn from(_error: NoMemory) -> CaseError {
        CaseError::NoMemory
    }
}

impl From<AllocError> for CaseError {
    fn from(_error: AllocError) -> CaseError {
        CaseError::NoMemory
    }
}

impl<T: Drop> From<AllocFailed<T>> for CaseError {
    fn from(_error: AllocFailed<T>) -> CaseError {
        CaseError::NoMemory
    }
}
