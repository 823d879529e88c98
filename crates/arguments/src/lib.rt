// A program's arguments: the task, and numbers in decimal. Nothing here knows of meshes.
#![tactic(auto)]

mod task;

use decimal::reading::read_number;
use reasons::Status;
use std::env::FillError;
use std::rt::Env;
use std::str;
pub use task::{Task, UnknownTask};

// No task takes so many arguments.
const MANY: usize = 8;

// An argument's bytes, as many as a path may have. `std::env::args` refuses all arguments where one of them is no text.
const LONGEST: usize = 4096;

fn is_given(rt: &HostRuntime, i: usize) -> bool {
    !matches!(rt.arg(i, &mut []), Err(FillError::NotPresent))
}

// How many arguments there are, the program's own name among them, as far as 8.
pub fn given(rt: &HostRuntime) -> usize {
    (0..MANY).take_while(|i| is_given(rt, *i)).count()
}

// What the first argument asks for. One that is missing, or longer than any task's name, is none.
pub fn asked(rt: &HostRuntime) -> Result<Task, UnknownTask> {
    let mut word = [0u8; 16];
    let length = rt.arg(1, &mut word).unwrap_or(0);
    match str::from_utf8(&word[..length]) {
        Ok(word) => word.parse(),
        Err(_) => Err(UnknownTask),
    }
}

// The number that argument i names; where it names none, the reason is on standard error.
pub fn number(rt: &HostRuntime, i: usize, name: &[u8]) -> Option<u32> {
    let mut text = [0u8; LONGEST];
    let length = rt.arg(i, &mut text).unwrap_or(0);
    let number = read_number(&text[..length]);
    if number.is_none() {
        let _ = eprint!(rt; "composthum: ");
        let _ = rt.stderr().write_all(name);
        let _ = eprintln!(rt; " is not a whole number below 4294967296");
    }
    number
}

// The reason for arguments that ask for nothing, and the status for it.
pub fn usage(rt: &HostRuntime, form: &[u8]) -> Status {
    let _ = eprint!(rt; "usage: composthum ");
    let _ = rt.stderr().write_all(form);
    let _ = eprintln!(rt; "");
    Status::Failed
}
