// One list of a view's edges, as the columns that the decoder takes.
ghost use Rattle.std.specs.Prelude.{◌≡◌, ◌<◌, ◌≤◌, false, replicate, take, pos, from_bits};
ghost use Rattle.std.specs.Float.{binary32};
ghost use Rattle.viewtext.specs.State.{given, likely};

use crate::edge::{Edge, Likelihoods};
use crate::fault::Expected;

// What is known of a list: that the file does not have it so far, or has it with no edge, or with edges that all have log likelihoods, or that all have none.
#[derive(Clone, Copy)]
pub enum State {
    Absent,
    Begun,
    Likely,
    Plain,
}

// A list of at most 8,192 edges, as columns.
#[derive(Clone, Copy)]
pub struct List {
    state: State,
    edges: usize,
    rows: [i32; 8192],
    cols: [i32; 8192],
    orientations: [u8; 8192],
    bits: [u8; 8192],
    confidences: [f32; 8192],
    hits: [f32; 8192],
    misses: [f32; 8192],
    ghost in_room: { edges ≤ 8192 },
}

// The columns of a list, of one length; without log likelihoods the last two hold 0.
#[derive(Clone, Copy)]
pub struct Columns<'a> {
    pub rows: &'a [i32],
    pub cols: &'a [i32],
    pub orientations: &'a [u8],
    pub bits: &'a [u8],
    pub confidences: &'a [f32],
    pub hits: &'a [f32],
    pub misses: &'a [f32],
}

impl List {
    // A list that the file does not have so far.
    pub fn new() -> List
        ensures edges { result.edges ≡ 0 }
        ensures wholes { (result.rows ≡ replicate 8192 (pos 0)) × (result.cols ≡ replicate 8192 (pos 0)) }
        ensures bytes { (result.orientations ≡ replicate 8192 0) × (result.bits ≡ replicate 8192 0) }
        ensures floats { (result.confidences ≡ replicate 8192 (from_bits binary32 0)) × (result.hits ≡ replicate 8192 (from_bits binary32 0)) × (result.misses ≡ replicate 8192 (from_bits binary32 0)) }
    {
        List {
            state: State::Absent,
            edges: 0,
            rows: [0; 8192],
            cols: [0; 8192],
            orientations: [0; 8192],
            bits: [0; 8192],
            confidences: [0.0; 8192],
            hits: [0.0; 8192],
            misses: [0.0; 8192],
        }
    }

    // Its columns, as far as it has edges.
    pub fn columns(&self) -> Columns<'_>
        ensures wholes { (result.rows.now ≡ take self.now.edges self.now.rows) × (result.cols.now ≡ take self.now.edges self.now.cols) }
        ensures bytes { (result.orientations.now ≡ take self.now.edges self.now.orientations) × (result.bits.now ≡ take self.now.edges self.now.bits) }
        ensures floats { (result.confidences.now ≡ take self.now.edges self.now.confidences) × (result.hits.now ≡ take self.now.edges self.now.hits) × (result.misses.now ≡ take self.now.edges self.now.misses) }
    {
        let edges = self.edges;
        Columns {
            rows: &self.rows[..edges],
            cols: &self.cols[..edges],
            orientations: &self.orientations[..edges],
            bits: &self.bits[..edges],
            confidences: &self.confidences[..edges],
            hits: &self.hits[..edges],
            misses: &self.misses[..edges],
        }
    }

    // Whether the file has it.
    pub fn is_given(&self) -> bool
        ensures { result ≡ given self.now.state }
    {
        !matches!(self.state, State::Absent)
    }

    // Whether its edges have log likelihoods.
    pub fn is_likely(&self) -> bool
        ensures { result ≡ likely self.now.state }
    {
        matches!(self.state, State::Likely)
    }

    // The list with one edge more; what is expected instead, where it does not take the edge.
    pub(crate) fn push(&mut self, edge: Edge) -> Result<(), Expected> {
        if self.edges >= 8192 {
            return Err(Expected::FewerEdges);
        }
        match self.state {
            State::Plain if edge.likelihoods.is_some() => return Err(Expected::NoLikelihoods),
            State::Likely if edge.likelihoods.is_none() => return Err(Expected::Likelihoods),
            _ => {}
        }
        self.put(edge);
        Ok(())
    }

    // An edge put behind the others, where there is room.
    fn put(&mut self, edge: Edge)
        requires { self.old.edges < 8192 }
    {
        let n = self.edges;
        let none = Likelihoods {
            hit: 0.0,
            miss: 0.0,
        };
        let likelihoods = edge.likelihoods.unwrap_or(none);
        self.state = if edge.likelihoods.is_some() {
            State::Likely
        } else {
            State::Plain
        };
        self.rows[n] = edge.row;
        self.cols[n] = edge.col;
        self.orientations[n] = edge.orientation as u8;
        self.bits[n] = edge.bit;
        self.confidences[n] = edge.confidence;
        self.hits[n] = likelihoods.hit;
        self.misses[n] = likelihoods.miss;
        self.edges = n + 1;
    }

    // The list made one that the file does not have so far; its columns stay as they are, and count no more.
    pub(crate) fn clear(&mut self)
        ensures { (given self.new.state ≡ false) × (self.new.edges ≡ 0) }
    {
        self.state = State::Absent;
        self.edges = 0;
    }

    // The list begun by its line, with no edge so far.
    pub(crate) fn begin(&mut self) {
        self.state = State::Begun;
    }
}
