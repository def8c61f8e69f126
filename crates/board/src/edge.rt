// What a call speaks of, by value: an edge as the camera saw it, where it is looked up, and a placing of a list.

// One edge of a list: where it lies in the view, its orientation (0 horizontal, 1 vertical), and the bit that was seen.
#[derive(Clone, Copy)]
pub struct Edge {
    pub row: i32,
    pub col: i32,
    pub orientation: u8,
    pub bit: u8,
}

// Where an edge is looked up: its orientation after the transform (0 horizontal, 1 vertical), and the cell relative to the origin.
#[derive(Clone, Copy)]
pub struct EdgeLookup {
    pub orientation: u8,
    pub row: i32,
    pub col: i32,
}

// A position in the transform list, from 0, with an origin on the board.
#[derive(Clone, Copy)]
pub struct Placing {
    pub listed: usize,
    pub row: u32,
    pub col: u32,
}
