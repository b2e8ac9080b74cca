//! The turns of a run.

/// A turn of a run. Replicas and sessions are counted from 0.
#[derive(Clone, Copy, Debug, PartialEq, Eq)]
pub enum Turn {
    /// A session pulls, makes the drops that are due, and then its next request is answered.
    Session(u8),
    /// What one replica's log has beyond what the other is known to have goes its way.
    Link {
        /// The replica that sends.
        from: u8,
        /// The replica that receives.
        to: u8,
    },
}
