// Whether a call with one list and no room is taken on: the early refusals 2 to 5, 7 to 9, 16 and 17, the first in their order, or accepted.
#![tactic(auto)]

ghost use Rattle.std.specs.Prelude.{◌≡◌};
ghost use Rattle.locate_admission.specs.LocateAdmission.{locate_admission};
ghost use Rattle.board.specs.Given.{board_of, list_of};

use admission::refusal::tables_bad;
use board::list::List;
use board::pattern::Tables;
use findings::{list_admission, settings_admission};
use refusals::{Admission, ListName, first_of};

// The early refusals of a call with one list, which may not be empty, its transforms, the pattern tables and the error limit.
pub fn locate_admission(
    list: List,
    transforms: &[u8],
    tables: Tables,
    error_limit: f32,
) -> Admission
    ensures { result ≡ locate_admission
        (list_of list.entry)
        transforms.now (board_of tables.entry) error_limit }
{
    let list = list_admission(1, ListName::Only, list);
    let settings = settings_admission(
        ranges::transforms_bad(transforms),
        tables_bad(tables),
        !ranges::in_range(error_limit, 1.0f32),
    );
    first_of(list, settings)
}
