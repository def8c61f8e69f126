// A view: the two edge lists and the settings, as its file gives them.
ghost use Rattle.std.specs.Prelude.{◌≡◌, false};
ghost use Rattle.viewtext.specs.State.{given};
ghost use Rattle.viewtext.specs.View.{list_of, serving};

use crate::edge::{Edge, Orientation};
use crate::fault::{Expected, Fault};
use crate::list::List;
use crate::settings::Settings;
use crate::text::{Line, Lines, Word};

// Which of a view's two lists.
#[derive(Clone, Copy, PartialEq, Eq)]
pub enum Which {
    Logical,
    Physical,
}

// The two lists.
#[derive(Clone, Copy)]
pub struct Lists {
    pub logical: List,
    pub physical: List,
}

impl Lists {
    // Two lists that the file does not have so far.
    pub fn new() -> Lists
        ensures { (result.logical.edges ≡ 0) × (result.physical.edges ≡ 0) }
    {
        Lists {
            logical: List::new(),
            physical: List::new(),
        }
    }

    // Both made lists that the file does not have so far.
    fn clear(&mut self)
        ensures absent { (given self.new.logical.state ≡ false) × (given self.new.physical.state ≡ false) }
        ensures edges { (self.new.logical.edges ≡ 0) × (self.new.physical.edges ≡ 0) }
    {
        self.logical.clear();
        self.physical.clear();
    }

    // One of them.
    pub fn list(&self, which: Which) -> &List
        ensures { result.now ≡ list_of which self.now }
    {
        match which {
            Which::Logical => &self.logical,
            Which::Physical => &self.physical,
        }
    }

    // The same, to be read on.
    fn list_mut(&mut self, which: Which) -> &mut List {
        match which {
            Which::Logical => &mut self.logical,
            Which::Physical => &mut self.physical,
        }
    }

    // The list that serves as one of them: that one, or where the file does not have it the only one.
    pub fn serving(&self, which: Which) -> &List
        ensures { result.now ≡ serving which self.now }
    {
        if !self.logical.is_given() {
            return &self.physical;
        }
        if !self.physical.is_given() {
            return &self.logical;
        }
        self.list(which)
    }
}

// The rows and columns from the first to the last that an edge has, counted from -1,000,000.
#[derive(Clone, Copy)]
pub struct Extent {
    pub top: u32,
    pub bottom: u32,
    pub left: u32,
    pub right: u32,
}

impl Extent {
    // The extent with one edge more.
    fn add(&mut self, edge: &Edge) {
        let row = edge.row.abs_diff(-1000000);
        let col = edge.col.abs_diff(-1000000);
        self.top = self.top.min(row);
        self.bottom = self.bottom.max(row);
        self.left = self.left.min(col);
        self.right = self.right.max(col);
    }
}

// What a view's file says beside its lists.
#[derive(Clone, Copy)]
pub struct View {
    pub settings: Settings,
    pub extent: Extent,
}

// What is read of a file so far: the list that is being read, and where the first logical edge stands that has log likelihoods.
#[derive(Clone, Copy)]
struct Reading {
    view: View,
    which: Which,
    likely_at: Option<usize>,
}

impl Reading {
    // A file of which nothing is read, so that it has neither list, whatever the lists were before.
    fn new(lists: &mut Lists) -> Reading
        ensures absent { (given lists.new.logical.state ≡ false) × (given lists.new.physical.state ≡ false) }
        ensures edges { (lists.new.logical.edges ≡ 0) × (lists.new.physical.edges ≡ 0) }
    {
        lists.clear();
        Reading {
            view: View {
                settings: Settings::new(),
                extent: Extent {
                    top: 2000000,
                    bottom: 0,
                    left: 2000000,
                    right: 0,
                },
            },
            which: Which::Logical,
            likely_at: None,
        }
    }

    // One line more; an edge goes into its list.
    fn read_line(&mut self, mut line: Line, lists: &mut Lists) -> Result<(), Fault> {
        let Some(word) = line.next_word() else {
            return Ok(());
        };
        match word.text {
            b"h" => self.read_edge(&word, &mut line, Orientation::Horizontal, lists),
            b"v" => self.read_edge(&word, &mut line, Orientation::Vertical, lists),
            b"logical" => self.begin(&word, &mut line, Which::Logical, lists),
            b"physical" => self.begin(&word, &mut line, Which::Physical, lists),
            b"transforms" | b"limit" | b"margin" => self.view.settings.read(&word, &mut line),
            _ => Err(word.fault(Expected::Keyword)),
        }
    }

    // The edge of a line, for the list that is being read.
    fn read_edge(
        &mut self,
        word: &Word,
        line: &mut Line,
        orientation: Orientation,
        lists: &mut Lists,
    ) -> Result<(), Fault> {
        let edge = Edge::read(line, orientation)?;
        if let Err(expected) = lists.list_mut(self.which).push(edge) {
            return Err(word.fault(expected));
        }
        if self.which == Which::Logical && edge.likelihoods.is_some() {
            self.likely_at = self.likely_at.or(Some(word.place));
        }
        self.view.extent.add(&edge);
        Ok(())
    }

    // A list that a line begins.
    fn begin(
        &mut self,
        word: &Word,
        line: &mut Line,
        which: Which,
        lists: &mut Lists,
    ) -> Result<(), Fault> {
        let list = lists.list_mut(which);
        if list.is_given() {
            return Err(word.fault(Expected::ListOnce));
        }
        line.end(Expected::LineEnd)?;
        list.begin();
        self.which = which;
        Ok(())
    }
}

// The view that a file gives, with its edges in the lists, or where the file is first at fault. Log likelihoods belong to the physical list, where there is one.
pub fn read_view(file: &[u8], lists: &mut Lists) -> Result<View, Fault> {
    let mut reading = Reading::new(lists);
    for line in Lines::new(file) {
        reading.read_line(line, lists)?;
    }
    match reading.likely_at {
        Some(place) if lists.physical.is_given() => Err(Fault {
            place,
            expected: Expected::PhysicalOnly,
        }),
        _ => Ok(reading.view),
    }
}
