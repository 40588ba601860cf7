// What a program reads: a file to its end, or as far as a buffer goes, and the image. What a read brings is the operating system's to say: of a
// file the contracts say no more than that the count is one of the buffer's bytes. Of a reader whose bytes are known they say which bytes came.
#![tactic(auto)]

ghost use Rattle.std.specs.Prelude.{◌≡◌, ◌<◌, [], length, take, IsTrue, IfOk, IfErr};
ghost use Rattle.std.specs.Counts.{IsPrefixLen};
ghost use Rattle.std.specs.Io.KnownBytes.{Consumes, IsAtEnd};

use std::io::Read;
use std::rt::Files;
use std::{fs, io};

// What reading brought: how many bytes stand in the buffer, and the last error, where the system told one.
#[derive(Clone, Copy)]
pub struct Got {
    pub count: usize,
    pub error: Option<io::Error>,
}

// Reads until buf is full, the file ends or a read fails. `read_exact` reads on after an interrupted read, and does not say how much it read.
fn fill<R: Read>(reader: &mut R, buf: &mut [u8]) -> Got
    ensures bound { IsPrefixLen result.count buf.new }
    ensures bytes { Consumes (R.remaining reader.old) (R.remaining reader.new) (take result.count buf.new) }
{
    let mut count = 0;
    let mut error = None;
    while count < buf.len() {
        match reader.read(&mut buf[count..]) {
            Ok(0) => break,
            Ok(n) => count += n,
            Err(e) => {
                error = Some(e);
                break;
            }
        }
    }
    Got { count, error }
}

// Whether a file has no byte left, and one more read says so.
fn at_end<R: Read>(reader: &mut R) -> io::Result<bool>
    ensures { IfOk result (λ end. IsTrue end → Consumes (R.remaining reader.old) (R.remaining reader.new) [] × IsAtEnd (R.remaining reader.new)) }
{
    let n = reader.read(&mut [0])?;
    Ok(n == 0)
}

// Reads into buf until it is full or the file ends. Ok is all that the buffer or the file has, Err is a part of it.
pub fn read_whole<R: Read>(reader: &mut R, buf: &mut [u8]) -> Result<Got, Got>
    ensures bound { IfOk result (λ got. IsPrefixLen got.count buf.new) }
    ensures part { IfErr result (λ got. IsPrefixLen got.count buf.new) }
    ensures bytes { IfOk result (λ got. Consumes (R.remaining reader.old) (R.remaining reader.new) (take got.count buf.new)) }
    ensures end { IfOk result (λ got. got.count < length buf.new → IsAtEnd (R.remaining reader.new)) }
{
    let got = fill(reader, buf);
    if got.count == buf.len() {
        return Ok(got);
    }
    match at_end(reader) {
        Ok(true) => Ok(got),
        Ok(false) => Err(got),
        Err(e) => Err(Got {
            count: got.count,
            error: Some(e),
        }),
    }
}

// What an image that is missing counts as.
const NOTHING: Got = Got {
    count: 0,
    error: None,
};

// The image, from image.bin: one that is missing, or of which no byte can be read, has none.
pub fn read_image<R: Files>(rt: &R, buf: &mut [u8]) -> Result<Got, Got>
    ensures whole { IfOk result (λ got. IsPrefixLen got.count buf.new) }
    ensures part { IfErr result (λ got. IsPrefixLen got.count buf.new) }
{
    match fs::open(rt, "image.bin") {
        Ok(file) => read_opened(file, buf),
        Err(_) => Ok(NOTHING),
    }
}

// The image in a file that is open.
fn read_opened<F: Read + Drop>(mut file: F, buf: &mut [u8]) -> Result<Got, Got>
    ensures whole { IfOk result (λ got. IsPrefixLen got.count buf.new) }
    ensures part { IfErr result (λ got. IsPrefixLen got.count buf.new) }
{
    let read = read_whole(&mut file, buf);
    match read {
        Ok(got) | Err(got) if got.count == 0 => Ok(NOTHING),
        _ => read,
    }
}

// What no clause says, since the system's reads are no known bytes: when what was read counts as whole, and that the last error is told.
#[cfg(test)]
mod tests {
    use super::*;
    use std::io::ErrorKind;

    const END: u8 = 0;

    const BYTE: u8 = 1;

    const FAILURE: u8 = 2;

    // Each read gives what the script has next, and the end behind it.
    #[derive(Drop)]
    struct Scripted<'a>(&'a [u8]);

    impl Read for Scripted<'_> {
        fn read(&mut self, buf: &mut [u8]) -> io::Result<usize> {
            let Some((next, rest)) = self.0.split_first() else {
                return Ok(0);
            };
            self.0 = rest;
            if *next == FAILURE {
                return Err(io::Error::from(ErrorKind::WouldBlock));
            }
            if *next == BYTE && !buf.is_empty() {
                buf[0] = b'x';
                return Ok(1);
            }
            Ok(0)
        }
    }

    // A prefix is never told to be whole, and an end that more follows is none.
    #[test]
    fn a_buffer_of_three_bytes(rt: HostRuntime) {
        let cases: [(&[u8], usize, bool, bool); 8] = [
            (&[], 0, true, false),
            (&[BYTE], 1, true, false),
            (&[BYTE, BYTE, BYTE, BYTE], 3, true, false),
            (&[BYTE, FAILURE], 1, true, true),
            (&[BYTE, FAILURE, FAILURE], 1, false, true),
            (&[BYTE, FAILURE, BYTE], 1, false, true),
            (&[BYTE, END, BYTE], 1, false, false),
            (&[FAILURE, FAILURE], 0, false, true),
        ];
        for (script, count, whole, failed) in cases {
            let mut buf = [0u8; 3];
            let read = read_whole(&mut Scripted(script), &mut buf);
            let (Ok(got) | Err(got)) = read;
            assert_eq!(rt; got.count, count, "{script:?}");
            assert_eq!(rt; read.is_ok(), whole, "{script:?}");
            assert_eq!(rt; got.error.is_some(), failed, "{script:?}");
        }
    }

    #[test]
    fn known_bytes(rt: HostRuntime) {
        let mut buf = *b"......";
        let read = read_whole(&mut &b"abcd"[..], &mut buf);
        assert_eq!(rt; read.map(|got| got.count).ok(), Some(4));
        assert_eq!(rt; buf, *b"abcd..");
    }

    // No image.bin lies where the tests run.
    #[test]
    fn an_image_that_is_missing(rt: HostRuntime) {
        let mut buf = [0u8; 3];
        let read = read_image(&rt, &mut buf);
        assert_eq!(rt; read.map(|got| got.count).ok(), Some(0));
    }

    // An image of which the first read fails counts as missing, one that fails behind its first byte is not whole.
    #[test]
    fn an_image_that_fails(rt: HostRuntime) {
        let cases: [(&[u8], usize, bool); 3] = [
            (&[FAILURE, FAILURE], 0, true),
            (&[BYTE, FAILURE, FAILURE], 1, false),
            (&[BYTE, BYTE, BYTE, FAILURE], 3, true),
        ];
        for (script, count, whole) in cases {
            let mut buf = [0u8; 3];
            let read = read_opened(Scripted(script), &mut buf);
            let (Ok(got) | Err(got)) = read;
            assert_eq!(rt; got.count, count, "{script:?}");
            assert_eq!(rt; read.is_ok(), whole, "{script:?}");
        }
    }
}
