//! Chosen keys.

use peb_base::Key;

/// A key that may become a guard, and the shallowest level of which it is a candidate.
#[derive(Debug, Drop)]
pub struct Chosen {
    pub key: Key,
    pub level: u8,
}
