// Lent room set to zero, of whatever numbers it holds.
#![tactic(auto)]

ghost use Rattle.std.specs.Prelude.{◌≤◌, ◌≡◌, length, pos};
ghost use Rattle.laws.specs.Words.{zero_f, cleared};

// A number that lent room can hold, with its zero: what a place holds before anything is added to it.
pub trait Zero: Copy {
    ghost ZERO: { Self };

    const ZERO: Self;
}

// The zero of counts.
impl Zero for u32 {
    ghost ZERO = { 0 };

    const ZERO: u32 = 0;
}

// The zero of weights is +0.
impl Zero for f32 {
    ghost ZERO = { zero_f };

    const ZERO: f32 = 0.0;
}

// The zero of likelihood sums.
impl Zero for i64 {
    ghost ZERO = { pos 0 };

    const ZERO: i64 = 0;
}

// The zero of whole units of weight.
impl Zero for u64 {
    ghost ZERO = { 0 };

    const ZERO: u64 = 0;
}

// Sets the first n places of a lent slice to zero; the surplus stays as it was.
pub fn clear<T: Zero>(room: &mut [T], n: usize)
    requires { n ≤ length room.old }
    ensures { room.new ≡ cleared T.ZERO n room.old }
{
    for place in &mut room[..n] {
        *place = T::ZERO;
    }
}
