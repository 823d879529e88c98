// A new file with a name that no other has.
use crate::{INVALID_ARGUMENT, text_of};
use std::fs::{File, OpenOptions};
use std::io;
use std::io::{Error, ErrorKind};
use std::os::unix::fs::OpenOptionsExt;

// How many names are tried.
const NAMES: u32 = 238328;

const FILE_EXISTS: i32 = 17;

// Six letters for a number.
fn put_letters(place: &mut [u8], number: u32) {
    let mut rest = number;
    for letter in place.iter_mut() {
        *letter = b'A' + (rest % 26) as u8;
        rest /= 26;
    }
}

fn create_new(rt: &HostRuntime, name: &[u8]) -> io::Result<File> {
    OpenOptions::new()
        .read(true)
        .write(true)
        .create_new(true)
        .mode(0o600)
        .open(rt, text_of(name)?)
}

// Creates a file that its owner alone may use. The name ends in XXXXXX, which is replaced.
pub fn create(rt: &HostRuntime, name: &mut [u8]) -> io::Result<File> {
    if !name.ends_with(b"XXXXXX") {
        return Err(Error::from_raw_os_error(INVALID_ARGUMENT));
    }
    let place = name.len() - 6;
    for number in 0..NAMES {
        put_letters(&mut name[place..], number);
        match create_new(rt, name) {
            Err(why) if why.kind() == ErrorKind::AlreadyExists => {}
            created => return created,
        }
    }
    Err(Error::from_raw_os_error(FILE_EXISTS))
}
