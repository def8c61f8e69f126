// A degenerate board, and columns that are bent after a window was cut: bits turned, values that repeat.
use slices::part::front_mut;

// A table with one bit set in each of the first n patterns.
pub(crate) fn fill_ones(table: &mut [u8; 167], n: usize) {
    for (i, pattern) in table.iter_mut().enumerate() {
        *pattern = (i < n) as u8;
    }
}

// The first n bits are turned, so that a clean window misses n edges.
pub(crate) fn turn_bits(bits: &mut [u8; 8193], n: usize) {
    for bit in front_mut(bits, n) {
        *bit = (*bit == 0) as u8;
    }
}

// Eight values, one after the other and again.
pub(crate) fn repeat(xs: &mut [f32; 8193], eight: &[f32; 8]) {
    for (x, value) in xs.iter_mut().zip(eight.iter().cycle()) {
        *x = *value;
    }
}
