// What a call left in the lent room, which held 7 before.
use console::number::bits_of;
use std::io;

// How many places of the room hold x.
fn places<T: PartialEq>(room: &[T], x: &T) -> usize {
    room.iter().filter(|place| *place == x).count()
}

// How many places of the f32 room hold x, by its bits.
fn places_by_bits(room: &[f32], x: f32) -> usize {
    room.iter()
        .filter(|place| bits_of(**place) == bits_of(x))
        .count()
}

// How many places of the u32 and f32 room hold 0, and how many still 7.
pub fn print_room(rt: &impl Print, counts: &[u32], weights: &[f32]) -> io::Result<()> {
    print!(rt;
        "\n  room: {} u32 hold 0, {} hold 7; {} f32 hold 0, {} hold 7",
        places(counts, &0),
        places(counts, &7),
        places_by_bits(weights, 0.0),
        places_by_bits(weights, 7.0),
    )
}

// The same of the i64 room, after the other two.
pub fn print_sums(rt: &impl Print, sums: &[i64]) -> io::Result<()> {
    print!(rt;
        "; {} i64 hold 0, {} hold 7",
        places(sums, &0),
        places(sums, &7),
    )
}

// What exact decode left: how many places of the u32 and u64 room hold 0, and how many still 7.
pub fn print_unit_room(rt: &impl Print, counts: &[u32], units: &[u64]) -> io::Result<()> {
    print!(rt;
        "\n  room: {} u32 hold 0, {} hold 7; {} u64 hold 0, {} hold 7",
        places(counts, &0),
        places(counts, &7),
        places(units, &0),
        places(units, &7),
    )
}
