// Files by the arguments that name them, read whole and replaced whole. Nothing here knows of meshes.
#![tactic(auto)]

mod fresh;

ghost use Rattle.std.specs.Prelude.{IfSome};
ghost use Rattle.files.specs.Counts.{IsPrefixLen};

use std::env::FillError;
use std::fs::{File, Permissions};
use std::io::{Error, Write};
use std::os::unix::fs::PermissionsExt;
use std::rt::Env;
use std::{fs, io, str};

// The system's numbers for errors that are found here.
const INVALID_ARGUMENT: i32 = 22;

const NAME_TOO_LONG: i32 = 36;

const NOT_TEXT: i32 = 84;

// How long a path may be. `std::env::args` refuses all arguments where one of them is no text.
const LONGEST: usize = 4096;

// Says on standard error that a file, or an argument, cannot be used, and why.
fn fault(rt: &HostRuntime, what: &[u8], why: &Error) {
    let _ = eprint!(rt; "composthum: ");
    reasons::fail(&rt.stderr(), what, why);
}

// Says that the read after the last one did not find the end of the file.
fn changed(rt: &HostRuntime, path: &[u8]) {
    let _ = eprint!(rt; "composthum: ");
    let _ = rt.stderr().write_all(path);
    let _ = eprintln!(rt; ": it changed while it was read");
}

// Reads until the buffer is full, the input ends or a read fails: of std's methods none says then how much was read.
pub fn read_full<R: io::Read>(input: &mut R, buffer: &mut [u8]) -> usize
    ensures { IsPrefixLen result buffer.new }
{
    let mut done = 0;
    while done < buffer.len() {
        match input.read(&mut buffer[done..]) {
            Ok(0) => return done,
            Ok(n) => done += n,
            Err(_) => return done,
        }
    }
    done
}

// Reads to the end of the file, or until the buffer is full. A read that fails and the end of the file look the same in the count, so one read
// more tells them apart.
fn fill(rt: &HostRuntime, file: &mut File, path: &[u8], buffer: &mut [u8]) -> Option<usize>
    ensures { IfSome result (λ count. IsPrefixLen count buffer.new) }
{
    let count = read_full(file, buffer);
    if count == buffer.len() {
        return Some(count);
    }
    let mut beyond = [0u8; 1];
    match io::Read::read(file, &mut beyond) {
        Ok(0) => return Some(count),
        Ok(_) => changed(rt, path),
        Err(why) => fault(rt, path, &why),
    }
    None
}

// The text of a path: std opens no other.
fn text_of(path: &[u8]) -> io::Result<&str> {
    str::from_utf8(path).map_err(|_| Error::from_raw_os_error(NOT_TEXT))
}

fn open(rt: &HostRuntime, path: &[u8]) -> io::Result<File> {
    fs::open(rt, text_of(path)?)
}

// The file at a path.
fn read_path(rt: &HostRuntime, path: &[u8], buffer: &mut [u8]) -> Option<usize>
    ensures { IfSome result (λ count. IsPrefixLen count buffer.new) }
{
    match open(rt, path) {
        Ok(mut file) => fill(rt, &mut file, path, buffer),
        Err(why) => {
            fault(rt, path, &why);
            None
        }
    }
}

// Both types are std's, so that this is no `From`.
fn error_of(why: FillError) -> Error {
    Error::from_raw_os_error(match why {
        FillError::NotPresent => INVALID_ARGUMENT,
        FillError::TooLong => NAME_TOO_LONG,
    })
}

// The file that argument i names: how many bytes stand at the front of the buffer, which are the file, or as much of it as the buffer holds.
// Where it cannot be read, the reason is on standard error.
pub fn read_argument(rt: &HostRuntime, i: usize, buffer: &mut [u8]) -> Option<usize>
    ensures { IfSome result (λ count. IsPrefixLen count buffer.new) }
{
    let mut path = [0u8; LONGEST];
    match rt.arg(i, &mut path) {
        Ok(length) => read_path(rt, &path[..length], buffer),
        Err(why) => {
            fault(rt, b"a path", &error_of(why));
            None
        }
    }
}

// All bytes in the file and on the disk, with the mode.
fn store(file: &mut File, mode: u32, bytes: &[u8]) -> io::Result<()> {
    file.write_all(bytes)?;
    file.set_permissions(Permissions::from_mode(mode))?;
    file.sync_all()
}

fn rename(rt: &HostRuntime, from: &[u8], to: &[u8]) -> io::Result<()> {
    fs::rename(rt, text_of(from)?, text_of(to)?)
}

fn remove(rt: &HostRuntime, path: &[u8]) -> io::Result<()> {
    fs::remove_file(rt, text_of(path)?)
}

// The bytes in the new file, which is then closed, and renamed.
fn finish(
    rt: &HostRuntime,
    file: File,
    beside: &[u8],
    path: &[u8],
    mode: u32,
    bytes: &[u8],
) -> io::Result<()> {
    {
        let mut file = file;
        store(&mut file, mode, bytes)?;
    }
    rename(rt, beside, path)
}

// A new file with these bytes in place of the one at the path: a run that is stopped at any moment leaves the old file or the whole new one.
// Where it cannot be done, the old one is left, and the reason is on standard error. The new file is named `beside`, whose XXXXXX is replaced.
fn replace(rt: &HostRuntime, path: &[u8], beside: &mut [u8], mode: u32, bytes: &[u8]) -> bool {
    let file = match fresh::create(rt, beside) {
        Ok(file) => file,
        Err(why) => {
            fault(rt, path, &why);
            return false;
        }
    };
    match finish(rt, file, beside, path, mode, bytes) {
        Ok(()) => true,
        Err(why) => {
            fault(rt, path, &why);
            let _ = remove(rt, beside);
            false
        }
    }
}

// The file that argument `out` names, replaced, by way of one beside it that argument `beside` names. Whether it could be done: if not, the
// reason is on standard error, and nothing is left to hand back.
pub fn replace_argument(
    rt: &HostRuntime,
    out: usize,
    beside: usize,
    mode: u32,
    bytes: &[u8],
) -> bool {
    let mut path = [0u8; LONGEST];
    let length = rt.arg(out, &mut path).unwrap_or(0);
    let mut name = [0u8; LONGEST];
    let size = rt.arg(beside, &mut name).unwrap_or(0);
    replace(rt, &path[..length], &mut name[..size], mode, bytes)
}
