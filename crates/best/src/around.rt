// What stands around a cell of a table that no other beats: how many cells are as good, and the best of the others.
ghost use Rattle.std.specs.Prelude.{◌≡◌, ℕ, Bool, ◌<◌, length};
ghost use Rattle.best.specs.Around.{Walk, Told};

// How many cells the given one does not beat, itself among them; how many of these pass a further test; and the first best of the other cells.
#[derive(Clone, Copy)]
pub struct Surroundings {
    pub tied: usize,
    pub alike: usize,
    pub second: usize,
}

// What stands around a cell that no other beats, where `beats` says of what two cells hold whether the first is better, and `same` is the further test of a cell by its number.
// Most cells stand below the second best so far, and no more is asked of them.
pub fn around<T: Copy, B: Fn(T, T) -> bool, S: Fn(usize) -> bool>(
    cells: &[T],
    cell: usize,
    beats: B,
    same: S,
) -> Surroundings
    requires table { (1 < length cells.now) × (cell < length cells.now) }
    requires compared { B.IsAlwaysCallable beats }
    requires asked { (i : ℕ) → i < length cells.now → S.pre same i }
    ensures told { (d : T) (b : ℕ → ℕ → Bool) (p q : ℕ → Bool) → Walk cells.now d cell (B.post beats) (S.post same) b p q → Told (length cells.now) cell b p q result.tied result.alike result.second }
    ensures inside { result.second < length cells.now }
{
    let top = cells[cell];
    let mut tied = 0;
    let mut alike = 0;
    let mut second = if cell == 0 { 1 } else { 0 };
    let mut under = cells[second];
    for (i, &x) in cells.iter().enumerate() {
        let below = beats(under, x);
        if !below {
            if !beats(top, x) {
                tied += 1;
                if same(i) {
                    alike += 1;
                }
            }
            if i != cell && beats(x, under) {
                second = i;
                under = x;
            }
        }
    }
    Surroundings {
        tied,
        alike,
        second,
    }
}
