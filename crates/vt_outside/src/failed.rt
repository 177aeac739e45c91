//! What is answered in place of a result.

/// A call to something outside failed. It says no more than that.
#[derive(Clone, Copy, Debug, PartialEq, Eq)]
pub struct Failed;

/// There was no memory for a thing with a disk: the disk is handed back as it was.
#[derive(Drop)]
pub struct Back<D> {
    pub disk: D,
}
