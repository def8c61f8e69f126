// What the command says of itself.
use console::message::warn;
use slices::page::Page;
use std::io;

// How it is used, in one line.
fn put_use(page: &mut Page) {
    page.put(b"use: samburext [--plain] [--exact | --no-tables] [--map FILE.svg] BOARD VIEW\n");
}

// All of it, as an answer: what it is, how it is used, the files with an example, and what the answer says.
pub fn show(rt: &impl Print) -> io::Result<()> {
    let mut page = Page::blank();
    page.put(b"samburext tells which square of a PuzzleBoard a camera faces, or refuses.\n\n");
    put_use(&mut page);
    page.put(
        b"\n\
        BOARD has two lines of digits from 0 to 7: the patterns of the horizontal edges, then of the vertical\n\
        edges. The flat board has 167 in each. A target wrapped round a pole has L in the first, L from 4 to\n\
        500 and no multiple of 3, and 167 in the second.\n\
        \n\
        VIEW has one edge a line: h or v, row, column, bit, confidence; for soft decode the log likelihoods\n\
        of a match and of a mismatch follow. For example:\n\
        \n\
        \x20   # corner of the bench, camera 2\n\
        \x20   transforms 0 1 2 3    # 1 to 8 numbers; 0 1 2 3 if left out\n\
        \x20   limit 0.2             # largest error rate; 0.3 if left out\n\
        \x20   margin 0.02           # soft margin; 0.02 if left out\n\
        \x20   logical\n\
        \x20   h 0 0 1 0.93\n\
        \x20   v 0 0 0 0.88\n\
        \x20   physical              # one list serves for both if only one is given\n\
        \x20   h 0 0 1 0.93 -0.05 -3.2\n\
        \x20   v 0 0 0 0.88 -0.10 -2.6\n\
        \n\
        A file has at most 1048576 bytes (a board 65536), a list at most 8192 edges.\n\
        \n\
        The answer is the square of the board on which row 0, column 0 of the view lies, and how the board\n\
        appears in the view. Rows go from 0 to 500 on the flat board and to 3L - 1 on a pole, where row 0\n\
        comes next (the seam); columns go from 0 to 500. Rows grow downwards, columns to the right.\n\
        \x20 0 as printed                          4 mirrored, left and right swapped\n\
        \x20 1 turned a quarter counter-clockwise  5 mirrored, rows and columns swapped\n\
        \x20 2 turned upside down                  6 mirrored, top and bottom swapped\n\
        \x20 3 turned a quarter clockwise          7 mirrored, rows and columns swapped, upside down\n\
        A refusal has a number and no square.\n\
        \n\
        --plain    one line of key=value, for programs\n\
        --exact    decode by hits and then by confidences that add without rounding, in units of 2^-24; for views\n\
        \x20          without log likelihoods\n\
        --no-tables decode by the hits of one list, without tables in memory: the logical list, or the only one;\n\
        \x20          slower, and without scores; for views without log likelihoods, and not with --exact\n\
        --map FILE.svg writes a picture of the board; a refusal has none, and one of that name from an\n\
        \x20          earlier run is removed; any other file of that name is left as it is\n\
        \n\
        Exit status: 0 found, 1 refused, 2 bad use or a file that cannot be read.\n",
    );
    rt.write_all(page.text())
}

// How it is used, as a message.
pub fn show_use(rt: HostRuntime) {
    let mut page = Page::blank();
    put_use(&mut page);
    page.put(b"samburext --help says more\n");
    warn(rt, &page);
}
