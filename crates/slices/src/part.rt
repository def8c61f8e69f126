// Parts of columns and of lent room, of whatever they hold.
ghost use Rattle.std.specs.Prelude.{◌≡◌, take};
ghost use Rattle.slices.specs.Part.{part};

// The first n elements, or all where there are fewer.
pub fn front<T>(xs: &[T], n: usize) -> &[T]
    ensures { result.now ≡ take n xs.now }
{
    if n <= xs.len() { &xs[..n] } else { xs }
}

// n elements from a place on, or none where there are not so many.
pub fn part<T>(xs: &[T], from: usize, n: usize) -> &[T]
    ensures { result.now ≡ part xs.now from n }
{
    if from > xs.len() || n > xs.len() - from {
        &xs[..0]
    } else {
        &xs[from..from + n]
    }
}

// The first n places of lent room, or all where there are fewer.
pub fn front_mut<T>(xs: &mut [T], n: usize) -> &mut [T]
    ensures { result.now ≡ take n xs.old }
{
    if n <= xs.len() { &mut xs[..n] } else { xs }
}
