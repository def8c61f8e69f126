// One element taken out of the front of a column: the rest closes up, the freed place is zero, and what stands behind the front stays.
#![tactic(auto)]

ghost use Rattle.std.specs.Prelude.{◌≡◌, ◌<◌, ◌≤◌, length, pos};
ghost use Rattle.laws.specs.Words.{zero_f};
ghost use Rattle.closing.specs.Closed.{closed};

// What a column can hold, with the value of a place that nothing stands in.
// It is not clearing's `Zero`, which has the types of lent room, and of these f32 alone: a column closes up over `laws` alone.
pub trait Blank: Copy {
    ghost BLANK: { Self };

    const BLANK: Self;
}

// A freed row or column is 0.
impl Blank for i32 {
    ghost BLANK = { pos 0 };

    const BLANK: i32 = 0;
}

// A freed orientation or bit is 0.
impl Blank for u8 {
    ghost BLANK = { 0 };

    const BLANK: u8 = 0;
}

// A freed confidence is +0.
impl Blank for f32 {
    ghost BLANK = { zero_f };

    const BLANK: f32 = 0.0;
}

// Takes element `at` out of the first n of a column.
pub fn close<T: Blank>(xs: &mut [T], at: usize, n: usize)
    requires { (at < n) × (n ≤ length xs.old) }
    ensures { xs.new ≡ closed T.BLANK at n xs.old }
{
    xs.copy_within(at + 1..n, at);
    xs[n - 1] = T::BLANK;
}
