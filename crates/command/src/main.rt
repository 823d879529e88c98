// The command: `check`, `list`, `lookup`, `box` and `migrate` on the image in a file. The answer is one line on standard output (a listing has more), the
// reason of a failure one line on standard error. The exit status of `./composthum` is the digit 0, 1 or 2 that the program writes to descriptor 3; its
// own is 0.
#![tactic(auto)]

mod migration;
mod room;
mod tasks;

use arguments::Task;
use reasons::Status;
use std::fs::OpenOptions;
use std::io::Write;

// How many arguments the program gets for a task, its own name among them, and how the task is written. The script adds two to those of `migrate`.
fn form(task: Task) -> (usize, &'static [u8]) {
    match task {
        Task::Check => (3, b"check IMAGE"),
        Task::List => (3, b"list IMAGE"),
        Task::Lookup => (5, b"lookup IMAGE DIM NUMBER"),
        Task::Box => (4, b"box IMAGE PART"),
        Task::Migrate => (7, b"migrate IMAGE LIST OUT"),
    }
}

// The answer to the arguments, and its status.
fn answer(rt: &HostRuntime) -> Status {
    let Ok(task) = arguments::asked(rt) else {
        return arguments::usage(rt, b"check | list | lookup | box | migrate | help");
    };
    let (wanted, words) = form(task);
    if arguments::given(rt) != wanted {
        return arguments::usage(rt, words);
    }
    tasks::on_image(rt, task).unwrap_or(Status::Failed)
}

// Writes the status to descriptor 3.
fn tell(rt: &HostRuntime, status: Status) {
    if let Ok(mut out) = OpenOptions::new().append(true).open(rt, "/dev/fd/3") {
        let _ = write!(out, "{status}");
    }
}

fn main(rt: HostRuntime) {
    let status = answer(&rt);
    tell(&rt, status);
}
