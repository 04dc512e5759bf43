//! What the outside lets an opening come to.

/// What the outside lets an opening come to.
#[derive(Debug, Drop)]
pub enum OpeningAnswer {
    /// It succeeded.
    Succeeded,
    /// The disk failed it, and the step was taken or not.
    Failing { taken: bool },
}
