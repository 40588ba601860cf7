// The whole report of an image and a list as a C function.
#![tactic(auto)]

ghost use Rattle.std.specs.Prelude.{◌≡◌, ◌+◌, length};
ghost use Rattle.report.specs.Report.{called};
ghost use Rattle.report_ffi.specs.Call.{told_number, GivesCall};

use report::NoReport;

// What a call answers, as a number: how long the report is, or 0x300000000 plus 0, 1 or 2.
fn told_number(x: Result<usize, NoReport>) -> u64
    ensures { result ≡ told_number x }
{
    match x {
        Ok(n) => n as u64,
        Err(NoReport::ShortBuffer) => 0x300000000,
        Err(NoReport::WrongTrack) => 0x300000001,
        Err(NoReport::WrongCounts) => 0x300000002,
    }
}

// Writes the report of an image file with the bytes of `image` and of a list with those of `list`. `image` and `track` hold memory and
// track afterwards, and `out` holds the report in front of what it held.
#[unsafe(no_mangle)]
pub extern "C" fn list_report(
    image: &mut [u8],
    list: &[u8],
    track: &mut [u32],
    out: &mut [u8],
) -> u64
    ensures { GivesCall (called image.old (length image.old) list.now (length list.now) track.old out.old) result image.new track.new out.new }
{
    let n = image.len();
    let k = list.len();
    told_number(report::write_report(image, n, list, k, track, out))
}
