// What stands at places.

/// A place, and a mark that says how it stands in a row.
pub type Part = (usize, i128);

/// What stands at a place: a label over parts.
#[derive(Drop)]
pub struct ClassRow {
    pub place: usize,
    pub label: usize,
    pub parts: Vec<Part>,
}
