//! Where an entry leads.

/// Where an entry leads.
#[derive(Clone, Copy, PartialEq, Eq, Debug)]
pub enum Landing {
    /// To the world of this number.
    World(usize),
    /// To the fault of this number.
    Fault(usize),
}

/// The result of an entry.
#[derive(Clone, Copy)]
pub enum Entered {
    /// The entry leads there.
    At(Landing),
    /// There is no room for one more world.
    Full,
}
