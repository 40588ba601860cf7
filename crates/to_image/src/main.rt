// Reads lines from standard input, a part at a time, and writes their image, or why they have none. Nothing is written before the last line is
// accepted. Where a read or the writing fails, it says so on standard error; lines that were not read to their end give no image.
#![tactic(auto)]

use line_reader::{Reader, Reading};
use std::io::Read;
use std::{array, io};

// Why the lines were not read to their end: a read failed, or it was read as often as a proved loop may turn.
type Unread = Option<io::Error>;

// Reads until the input ends or a line is turned back. A proved loop has to end, and nothing says that an input does: so it counts its turns, to a
// number that no run uses up.
fn read_lines<R: Read>(lines: &mut R, reading: &mut Reading) -> Result<(), Unread> {
    let mut part: [u8; 65536] = array::repeat(0);
    for _ in 0..u64::MAX {
        let n = lines.read(&mut part).map_err(Some)?;
        reading.feed(&part[..n]);
        if n == 0 || reading.reader.is_decided() {
            return Ok(());
        }
    }
    Err(None)
}

// Writes the image, or the refusal.
fn print_image(rt: &(impl Print + Eprint + AllocGlobal), reader: Reader, image: &mut [u8]) {
    if let Ok(size) = reader.finish_file(image) {
        output::write_or_fail(rt, &image[..size], "to_image: the output cannot be written");
    }
}

fn main(rt: HostRuntime) {
    let mut line: [u8; 17] = array::repeat(0); // line_most
    let mut image: [u8; 32768] = array::repeat(0); // image_limit
    let mut reading = Reading {
        reader: Reader::begin(&mut image),
        line: &mut line,
        image: &mut image,
    };
    match read_lines(&mut rt.stdin(), &mut reading) {
        Ok(()) => print_image(&rt, reading.reader, reading.image),
        Err(error) => output::fail(&rt, "to_image: the lines were not read to their end", error),
    }
}
