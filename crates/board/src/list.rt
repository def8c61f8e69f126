// What a call is given of its lists: a column for each field of their edges.
ghost use Rattle.std.specs.Prelude.{◌≡◌, ◌<◌, length};
ghost use Rattle.board.specs.Given.{edges_of};
ghost use Rattle.board.specs.Hits.{edge_at};

use crate::edge::Edge;

// The edges of a list, a column for each field: where each lies in the view, its orientation (0 horizontal, 1 vertical), and the bit that was seen.
#[derive(Clone, Copy)]
pub struct Edges<'a> {
    pub rows: &'a [i32],
    pub cols: &'a [i32],
    pub orientations: &'a [u8],
    pub bits: &'a [u8],
}

// A list: its edges, and how sure the camera is of each.
#[derive(Clone, Copy)]
pub struct List<'a> {
    pub edges: Edges<'a>,
    pub confidences: &'a [f32],
}

impl<'a> Edges<'a> {
    // Edge i, by value. Confidences are no part of it.
    pub fn edge_at(self, i: usize) -> Edge
        requires { (i < length self.rows.now) × (i < length self.cols.now) × (i < length self.orientations.now) × (i < length self.bits.now) }
        ensures { result ≡ edge_at (edges_of self.entry) i }
    {
        let row = self.rows[i];
        let col = self.cols[i];
        let orientation = self.orientations[i];
        let bit = self.bits[i];
        Edge {
            row,
            col,
            orientation,
            bit,
        }
    }
}
