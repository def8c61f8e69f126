// Builds the tables of one list of six edges for transform 1 and then for transform 2, in the same room, which held other values before. Of each it
// writes some cells and a checksum over all cells.
ghost use Rattle.std.specs.Prelude.{◌≡◌, ◌<◌, ◌≤◌, length};
ghost use Rattle.board.specs.Hits.{edges, tables};
ghost use Rattle.tables.specs.Built.{TablesReady};

use board::list::{Edges, List};
use board::pattern::Tables;
use console::number::{Bits, bits_of};
use runs::cut::fill_patterns;
use std::io;

// The next checksum: the one before times 31, plus x.
fn stir(sum: u64, x: u32) -> u64
    requires { sum < 1000000007 }
    ensures { result < 1000000007 }
{
    (sum * 31 + x as u64) % 1000000007
}

// A checksum over the first n cells: of each its count, then the bits of its weight.
fn checksum(counts: &[u32], weights: &[f32], n: usize) -> u64
    requires { (n ≤ length counts.now) × (n ≤ length weights.now) }
{
    let mut sum: u64 = 0;
    for (count, weight) in counts[..n].iter().zip(&weights[..n]) {
        sum = stir(sum, *count);
        sum = stir(sum, bits_of(*weight));
    }
    sum
}

// A cell: its count and the bits of its weight.
fn print_cell(rt: &impl Print, counts: &[u32], weights: &[f32], k: usize) -> io::Result<()>
    requires { (k < length counts.now) × (k < length weights.now) }
{
    println!(rt; "cell {k}: {} {}", counts[k], Bits(weights[k]))
}

// Some cells, and the checksum of all.
fn print_cells(rt: &impl Print, counts: &[u32], weights: &[f32]) -> io::Result<()>
    requires { (1002 ≤ length counts.now) × (1002 ≤ length weights.now) }
{
    for j in 0..6 {
        print_cell(rt, counts, weights, j * 200)?;
    }
    println!(rt; "all {}", checksum(counts, weights, 1002))
}

// The tables of transform t, built and written.
fn show<'a>(
    rt: &impl Print,
    rows: &'a [i32],
    cols: &'a [i32],
    orientations: &'a [u8],
    bits: &'a [u8],
    confidences: &'a [f32],
    t: u8,
    h: &'a [u8],
    v: &'a [u8],
    counts: &mut [u32],
    weights: &mut [f32],
) -> io::Result<()>
    requires tables_ready { TablesReady (tables h.now v.now) (edges rows.now cols.now orientations.now bits.now confidences.now) t counts.old weights.old }
    requires counts_len { (length counts.old ≡ 3006) × (length weights.old ≡ 3006) }
    ensures { (length counts.new ≡ 3006) × (length weights.new ≡ 3006) }
{
    println!(rt; "transform {t}")?;
    let list = List {
        edges: Edges {
            rows,
            cols,
            orientations,
            bits,
        },
        confidences,
    };
    let tables = Tables { h, v };
    tables::build::build_tables(list, t, tables, counts, weights);
    print_cells(rt, counts, weights)
}

// Both transforms, one after the other in one room.
pub(crate) fn show_all(rt: &impl Print) -> io::Result<()> {
    let mut h = [0u8; 167];
    let mut v = [0u8; 167];
    fill_patterns(&mut h, 1);
    fill_patterns(&mut v, 2);
    let rows = [0i32, 2, -1, 700, -501, 0];
    let cols = [0i32, 3, 4, -35, 166, 0];
    let orientations = [0u8, 0, 1, 1, 0, 0];
    let bits = [1u8, 0, 1, 1, 0, 1];
    let confidences = [0.5f32, 0.3, 1.0, 0.1, 0.7, 0.2];
    let mut counts = [7u32; 3006];
    let mut weights = [0.5f32; 3006];
    show(
        rt,
        &rows,
        &cols,
        &orientations,
        &bits,
        &confidences,
        1,
        &h,
        &v,
        &mut counts,
        &mut weights,
    )?;
    show(
        rt,
        &rows,
        &cols,
        &orientations,
        &bits,
        &confidences,
        2,
        &h,
        &v,
        &mut counts,
        &mut weights,
    )
}
