// Soft selection on one list: the likelihood sums of each transform in turn, folded into the scan.
ghost use Rattle.std.specs.Prelude.{◌≡◌, ◌<◌, length};
ghost use Rattle.sums.specs.Sums.{likelihoods};
ghost use Rattle.soft.specs.Scan.{soft_folded};
ghost use Rattle.soft.specs.Select.{SoftReady, SoftScanned};
ghost use Rattle.soft.specs.SelectLaws.{room_sums, SumsRoomReady};
ghost use Rattle.board.specs.Given.{board_of, list_of};
ghost use Rattle.likelihood.specs.Given.{likelihoods_of};

use board::list::List;
use board::pattern::Tables;
use laws::Periods;
use likelihood::Likelihoods;
use margin::slots::SoftScan;

// One transform's sums, where they were built in the room, folded into the scan.
fn fold_room(scan: SoftScan, sums: &[i64], periods: Periods) -> SoftScan
    requires sums_room_ready { SumsRoomReady periods.h periods.v sums.now }
    requires count_bound { scan.count < 8 }
    ensures { result ≡ soft_folded periods.h periods.v (room_sums periods.h periods.v sums.now) scan }
{
    let a = 3 * periods.h;
    let e = a + 3 * periods.v;
    crate::record::fold_transform(scan, &sums[0..a], &sums[a..e], periods)
}

// The scan of a list over all its transforms, in order: the sums are built anew for each.
pub fn scan_transforms(
    list: List,
    likelihoods: Likelihoods,
    transforms: &[u8],
    tables: Tables,
    sums: &mut [i64],
) -> SoftScan
    requires { SoftReady (board_of tables) (list_of list) (likelihoods_of likelihoods) transforms.now sums.old }
    ensures { SoftScanned (board_of tables.entry) (list_of list.entry) (likelihoods_of likelihoods.entry) transforms.now (length transforms.now) sums.old sums.new result }
{
    let periods = Periods {
        h: tables.h.len(),
        v: tables.v.len(),
    };
    let mut scan = crate::record::empty();
    for i in 0..transforms.len() {
        let t = transforms[i];
        sums::sums::build_sums(list.edges, likelihoods, t, tables, sums);
        scan = fold_room(scan, sums, periods);
    }
    scan
}
