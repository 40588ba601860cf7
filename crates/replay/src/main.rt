// Reads memory from image.bin and a list from standard input, and prints the report. Where a read or the writing fails, it says so
// on standard error; a file that was not read to its end gives no report.
#![tactic(auto)]

ghost use Rattle.std.specs.Prelude.{IfOk, IfErr};
ghost use Rattle.std.specs.Counts.{IsPrefixLen};

use input::Got;
use std::array;
use std::io::Read;

// How many bytes the list has. It is read only after a start that is accepted.
fn read_list<R: Read>(wanted: bool, list: &mut R, buf: &mut [u8]) -> Result<usize, Got>
    ensures whole { IfOk result (λ count. IsPrefixLen count buf.new) }
    ensures part { IfErr result (λ got. IsPrefixLen got.count buf.new) }
{
    if !wanted {
        return Ok(0);
    }
    Ok(input::read_whole(list, buf)?.count)
}

// Writes the report of an image buffer of which n bytes were read and a list buffer of which k were.
fn print_report(
    rt: &(impl Print + Eprint + AllocGlobal),
    image: &mut [u8],
    n: usize,
    list: &[u8],
    k: usize,
) {
    let mut track: [u32; 9216] = array::repeat(0); // track_length
    let mut out: [u8; 262272] = array::repeat(0); // report_limit
    if let Ok(size) = report::write_report(image, n, list, k, &mut track, &mut out) {
        output::write_or_fail(rt, &out[..size], "replay: the report cannot be written");
    }
}

fn main(rt: HostRuntime) {
    let mut image: [u8; 32769] = array::repeat(0); // image_limit and a byte
    let n = match input::read_image(&rt, &mut image) {
        Ok(got) => got.count,
        Err(got) => return output::fail(
            &rt,
            "replay: image.bin was not read to its end",
            got.error,
        ),
    };
    let mut list: [u8; 65537] = array::repeat(0); // list_limit and a byte
    match read_list(report::looks_at_list(n), &mut rt.stdin(), &mut list) {
        Ok(k) => print_report(&rt, &mut image, n, &list, k),
        Err(got) => output::fail(&rt, "replay: the list was not read to its end", got.error),
    }
}
