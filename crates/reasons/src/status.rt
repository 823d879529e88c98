// How a run of the command ends: shown, the digit that is its exit status.
ghost use Rattle.std.specs.Prelude.{Some};
ghost use Rattle.reasons.specs.Statuses.{digit_of};

use std::fmt;

#[derive(Clone, Copy)]
pub enum Status {
    Done,
    Refused,
    // Bad usage, or a file or an answer that could not be read or written: the reason is on standard error.
    Failed,
}

impl fmt::Display for Status {
    ghost output = { λ status. Some (digit_of status) };

    fn fmt<W: fmt::Write>(&self, f: &mut fmt::Formatter<W>) -> fmt::Result {
        f.write_str(match self {
            Status::Done => "0",
            Status::Refused => "1",
            Status::Failed => "2",
        })
    }
}
