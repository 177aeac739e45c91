//! What is answered of a run.

/// A status, and the disk that the run was given.
#[derive(Drop)]
pub struct Ended<D> {
    pub status: u8,
    pub disk: D,
}
