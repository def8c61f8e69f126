// What is wrong with a file: what it should have had, and where it does not.
use std::fmt;

// What a file should have had at a place.
#[derive(Clone, Copy, Debug, PartialEq, Eq)]
pub enum Expected {
    Keyword,
    Row,
    Column,
    Bit,
    Confidence,
    Match,
    Mismatch,
    LineEnd,
    Likelihoods,
    NoLikelihoods,
    FewerEdges,
    ListOnce,
    SettingOnce,
    Transform,
    SomeTransforms,
    Limit,
    Margin,
    PhysicalOnly,
    Horizontal,
    Vertical,
    FileEnd,
    Digit,
}

// The words that a message has for it.
impl fmt::Display for Expected {
    fn fmt<W: fmt::Write>(&self, f: &mut fmt::Formatter<W>) -> fmt::Result {
        f.write_str(self.words())
    }
}

impl Expected {
    // The same as a text.
    fn words(&self) -> &'static str {
        match self {
            Expected::Keyword => "h, v, logical, physical, transforms, limit or margin",
            Expected::Row => "the row, a whole number from -1000000 to 1000000",
            Expected::Column => "the column, a whole number from -1000000 to 1000000",
            Expected::Bit => "the bit, 0 or 1",
            Expected::Confidence => {
                "the confidence, a decimal from 0 to 1 with at most 7 places, such as 0.93"
            }
            Expected::Match => {
                "the log likelihood of a match, a decimal from -65536 to 65536 of at most 7 digits, such as -0.25"
            }
            Expected::Mismatch => {
                "the log likelihood of a mismatch, a decimal from -65536 to 65536 of at most 7 digits, such as -2.5"
            }
            Expected::LineEnd => "the end of the line",
            Expected::Likelihoods => {
                "an edge with two log likelihoods, as the list's first edge has"
            }
            Expected::NoLikelihoods => "an edge without log likelihoods, as the list's first edge",
            Expected::FewerEdges => "at most 8192 edges in a list",
            Expected::ListOnce => "each list once, the logical one before its first edge",
            Expected::SettingOnce => "each setting once",
            Expected::Transform => "a transform, a whole number from 0 to 7",
            Expected::SomeTransforms => "1 to 8 transforms",
            Expected::Limit => {
                "the error limit, a decimal from 0 to 1 with at most 7 places, such as 0.3"
            }
            Expected::Margin => {
                "the soft margin, a decimal from 0 to 65536 of at most 7 digits, such as 0.02"
            }
            Expected::PhysicalOnly => {
                "no log likelihoods in the logical list, since there is a physical list"
            }
            Expected::Horizontal => {
                "a line of L digits from 0 to 7, the patterns of horizontal edges, L from 4 to 500 and no multiple of 3 (167 on the flat board)"
            }
            Expected::Vertical => {
                "a line of 167 digits from 0 to 7, the patterns of vertical edges"
            }
            Expected::FileEnd => "nothing more after the two lines of patterns",
            Expected::Digit => "a digit from 0 to 7",
        }
    }
}

// Where a file is at fault, as bytes before it, and what is expected there.
#[derive(Clone, Copy, Debug, PartialEq, Eq)]
pub struct Fault {
    pub place: usize,
    pub expected: Expected,
}
