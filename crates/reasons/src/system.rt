// Why a call of the system failed, in the system's own words.
use arrayvec::ArrayString;
use std::fmt::Write;
use std::io::Error;

// The reason alone: std adds the error's number behind it, in brackets.
fn without_number(text: &str) -> &str {
    match text.rsplit_once(" (os error ") {
        Some((reason, _)) => reason,
        None => text,
    }
}

// A line: what failed, a colon, and why. Every reason is far shorter than 256 bytes; of a longer one only the first pieces would be said.
pub fn fail(errors: &impl Print, what: &[u8], why: &Error) {
    let mut line = ArrayString::<256>::new();
    let _ = write!(line, "{why}");
    let _ = errors.write_all(what);
    let _ = print!(errors; ": ");
    let _ = println!(errors; "{}", without_number(line.as_str()));
}
