//! The rank of a world.

/// What is known of a world: whether it is quiet, and how far it is from an end under fair schedules.
#[derive(Clone, Copy)]
pub struct Rank {
    /// The world is at rest.
    pub quiet: bool,
    /// The rank: no step raises it.
    pub rank: u32,
    /// The helpful fiber: its step lowers the rank, and so does each step that makes an entry of that fiber.
    pub helper: u16,
}
