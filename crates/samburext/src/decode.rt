// The decoder called on what the files gave. One list serves for both where the view has only one; where the physical list has log likelihoods, decode is soft, else
// hard, or exact or without tables where that is asked for. Without tables the logical list alone is looked at. The room that is lent serves the longest pole: 6,003 counts, weights and units, and 10,005 sums.
use admission::call::{HardCall, SoftCall};
use answertext::shown::Shown;
use answertext::told::{How, Told};
use board::list::{Edges, List};
use board::pattern::Tables;
use likelihood::Likelihoods;
use locate_answer::LocateAnswer;
use options::args::Way;
use viewtext::board_file::Board;
use viewtext::list::Columns;
use viewtext::settings::Settings;
use viewtext::view_file::{Lists, Which};

// How a view is decoded: soft where the list that serves as the physical one has log likelihoods, else as it is asked for. The way that was asked for, where the two do
// not go together.
pub(crate) fn how_of(lists: &Lists, way: Option<Way>) -> Result<How, Way> {
    let likely = lists.serving(Which::Physical).is_likely();
    match way {
        Some(way) if likely => Err(way),
        Some(Way::Exact) => Ok(How::Exact),
        Some(Way::NoTables) => Ok(How::Located),
        None if likely => Ok(How::Soft),
        None => Ok(How::Hard),
    }
}

// The share of misses among the edges of a list; 0 where no list has so many edges or hits.
fn rate_of(edges: u32, hits: u32) -> f32 {
    if edges < hits {
        return 0.0;
    }
    if 8192 < edges {
        return 0.0;
    }
    figures::rate(edges, hits)
}

// How many edges a list has, as they are told; 0 where no list has so many.
fn counted(edges: usize) -> u32 {
    if 8192 < edges {
        return 0;
    }
    edges as u32
}

// What is located on a list of so many edges, as it is told.
fn told_of(answer: LocateAnswer, edges: usize) -> Told {
    let all = counted(edges);
    match answer {
        Ok(found) => {
            let rate = rate_of(all, found.hits);
            Told::Located(Shown::of_located(found, all, rate))
        }
        Err(refusal) => Told::Refused(refusal),
    }
}

// A list's columns, as the library takes them.
fn list_of(columns: Columns<'_>) -> List<'_> {
    List {
        edges: Edges {
            rows: columns.rows,
            cols: columns.cols,
            orientations: columns.orientations,
            bits: columns.bits,
        },
        confidences: columns.confidences,
    }
}

// What hard decode says.
fn hard(call: HardCall) -> Told {
    let mut counts = [0u32; 6003];
    let mut weights = [0.0f32; 6003];
    let answer = decode_hard::decode_hard(call, &mut counts, &mut weights);
    ten_fields::any_of_hard(answer).into()
}

// What exact decode says.
fn exact(call: HardCall) -> Told {
    let mut counts = [0u32; 6003];
    let mut units = [0u64; 6003];
    decode_exact::decode_exact(call, &mut counts, &mut units).into()
}

// What the engine without tables says of the logical list.
fn located(call: HardCall) -> Told {
    let answer = locate::locate(call.logical, call.transforms, call.tables, call.error_limit);
    told_of(answer, call.logical.edges.rows.len())
}

// What soft decode says.
fn soft(call: SoftCall) -> Told {
    let mut counts = [0u32; 6003];
    let mut weights = [0.0f32; 6003];
    let mut sums = [0i64; 10005];
    let answer = decode_soft::decode_soft(call, &mut counts, &mut weights, &mut sums);
    ten_fields::any_of_soft(answer).into()
}

// What the decoder says of a view's lists on a board, decoded as it is told.
pub(crate) fn decode(settings: Settings, how: How, lists: &Lists, board: &Board) -> Told {
    let transforms = settings.transforms();
    let physical = lists.serving(Which::Physical).columns();
    let call = HardCall {
        logical: list_of(lists.serving(Which::Logical).columns()),
        physical: list_of(physical),
        transforms: transforms.numbers(),
        tables: Tables {
            h: board.horizontal(),
            v: board.vertical(),
        },
        error_limit: settings.limit(),
    };
    match how {
        How::Hard => hard(call),
        How::Exact => exact(call),
        How::Located => located(call),
        How::Soft => soft(SoftCall {
            hard: call,
            likelihoods: Likelihoods {
                matches: physical.hits,
                mismatches: physical.misses,
            },
            soft_margin: settings.margin(),
        }),
    }
}
