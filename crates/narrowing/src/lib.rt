// A transform number as C and Rust programs give it, a u32, made the byte that the library takes.
#![tactic(auto)]

ghost use Rattle.std.specs.Prelude.{◌≡◌};
ghost use Rattle.flat.specs.Flat.{narrow};

// A transform number as the byte that the library takes: every number above 7 becomes 255, which is refused as any of them is.
#[tactic(auto, unfolding(flat::specs::Flat::narrow))]
pub fn narrowed(transform: u32) -> u8
    ensures { result ≡ narrow transform }
{
    if transform > 7 {
        return 255;
    }
    transform as u8
}
