//! That a device or a stream failed.

use thiserror::Error;

/// A read, a write or an answer failed. What it was is not kept: a count of its object rose.
#[derive(Clone, Copy, Debug, PartialEq, Eq, Error)]
#[error("the device failed")]
pub struct Failed;
