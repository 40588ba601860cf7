// What a program writes: its output, whole, and on standard error what failed and why.
#![tactic(auto)]

ghost use Rattle.std.specs.Prelude.{◌≡◌, ◌≢◌, ◌⊎◌, ℕ, List, ◌++◌, codes};

use std::io;

// Writes all of the bytes to standard output. Where that fails, it says so.
pub fn write_or_fail(rt: &(impl Print + Eprint + AllocGlobal), bytes: &[u8], what: &str) {
    if let Err(e) = rt.write_all(bytes) {
        fail(rt, what, Some(e));
    }
}

// Writes a line to standard error: what failed, a colon, and the system's words for the error. Where the system told none, these are its words for
// no error. That standard error cannot be written is nothing that could be told.
pub fn fail(rt: &(impl Eprint + AllocGlobal), what: &str, error: Option<io::Error>) {
    let _ = match error {
        Some(e) => say(rt, what, e),
        None => eprintln!(rt; "{what}: Success"),
    };
}

// The words for an error are short, but they are cut from a text that std makes: where there is no memory for that, the line has all of it.
fn say(rt: &(impl Eprint + AllocGlobal), what: &str, error: io::Error) -> io::Result<()> {
    match format!(in rt.alloc(); "{error}") {
        Ok(text) => {
            let cause = words(text.as_str());
            eprintln!(rt; "{what}: {cause}")
        }
        Err(_) => eprintln!(rt; "{what}: {error}"),
    }
}

// The text of an error without the number that std puts behind the system's words, as in `Is a directory (os error 21)`.
fn words(text: &str) -> &str
    ensures { ((rest : List ℕ) × (text.now ≡ result.now ++ (codes " (os error " ++ rest))) ⊎ ((result.now ≡ text.now) × ((xs ys : List ℕ) → text.now ≢ xs ++ (codes " (os error " ++ ys))) }
{
    match text.split_once(" (os error ") {
        Some((front, _)) => front,
        None => text,
    }
}

#[cfg(test)]
mod tests {
    use super::*;

    // The texts are those of the C library's strerror.
    #[test]
    fn the_words_for_an_error(rt: HostRuntime) {
        for (code, want) in [
            (2, "No such file or directory"),
            (11, "Resource temporarily unavailable"),
            (21, "Is a directory"),
            (28, "No space left on device"),
        ] {
            let error = io::Error::from_raw_os_error(code);
            let text = format!(in rt.alloc(); "{error}").expect(&rt, "a text");
            assert_eq!(rt; words(text.as_str()), want, "{code}");
        }
        assert_eq!(rt;
            words("failed to write whole buffer"),
            "failed to write whole buffer"
        );
    }
}
