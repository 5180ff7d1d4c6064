//! The rows of the tables.

/// What is given in a row; a number that is missing is 0.
#[derive(Clone, Copy)]
pub struct Row {
    /// How many draws the sample has.
    pub draws: u32,
    pub seed: u64,
    /// How many bytes the sink takes.
    pub room: usize,
}

/// The numbers of a row, which spaces part.
pub fn row_of(row: &str) -> Row {
    let (draws, row) = row.split_once(' ').unwrap_or((row, ""));
    let (seed, room) = row.split_once(' ').unwrap_or((row, ""));
    Row {
        draws: draws.parse().unwrap_or(0),
        seed: seed.parse().unwrap_or(0),
        room: room.parse().unwrap_or(0),
    }
}
