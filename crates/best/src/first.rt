// The first of the best cells of a table, whatever a cell holds.
ghost use Rattle.std.specs.Prelude.{◌≡◌, ℕ, Bool, ◌<◌, length};
ghost use Rattle.laws.specs.Words.{first_best};
ghost use Rattle.best.specs.First.{Compares};

// The first of the best cells of a table, where `beats` says of what two cells hold whether the first is better.
pub fn first_best<T: Copy, B: Fn(T, T) -> bool>(cells: &[T], beats: B) -> usize
    requires some { 0 < length cells.now }
    requires asked { B.IsAlwaysCallable beats }
    ensures first { (d : T) (b : ℕ → ℕ → Bool) → Compares cells.now d (B.post beats) b → result ≡ first_best b (length cells.now) }
    ensures inside { result < length cells.now }
{
    let mut best = 0;
    let mut top = cells[0];
    for (i, &cell) in cells.iter().enumerate() {
        if beats(cell, top) {
            best = i;
            top = cell;
        }
    }
    best
}
