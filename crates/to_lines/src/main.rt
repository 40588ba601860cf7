// Reads an image from image.bin, and prints its lines, or why it has none. Where a read or the writing fails, it says so on standard error; an
// image that was not read to its end gives no lines.
#![tactic(auto)]

use std::array;

// Writes the lines of an image buffer of which n bytes were read.
fn print_lines(rt: &(impl Print + Eprint + AllocGlobal), image: &[u8], n: usize) {
    let mut out: [u8; 147474] = array::repeat(0); // file_room
    if let Ok(size) = line_writer::write_file_lines(image, n, &mut out) {
        output::write_or_fail(rt, &out[..size], "to_lines: the lines cannot be written");
    }
}

fn main(rt: HostRuntime) {
    let mut image: [u8; 32769] = array::repeat(0); // image_limit and a byte
    match input::read_image(&rt, &mut image) {
        Ok(got) => print_lines(&rt, &image, got.count),
        Err(got) => output::fail(
            &rt,
            "to_lines: image.bin was not read to its end",
            got.error,
        ),
    }
}
