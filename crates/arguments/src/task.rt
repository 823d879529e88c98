// What the command can be asked for.
ghost use Rattle.arguments.specs.Words.{AsksFor};

use std::str::FromStr;

#[derive(Clone, Copy)]
pub enum Task {
    Check,
    List,
    Lookup,
    Box,
    Migrate,
}

// The error of a word that asks for no task.
#[derive(Clone, Copy)]
pub struct UnknownTask;

impl FromStr for Task {
    type Err = UnknownTask;

    ghost from_str_gives = { AsksFor };

    fn from_str(word: &str) -> Result<Task, UnknownTask> {
        match word {
            "check" => Ok(Task::Check),
            "list" => Ok(Task::List),
            "lookup" => Ok(Task::Lookup),
            "box" => Ok(Task::Box),
            "migrate" => Ok(Task::Migrate),
            _ => Err(UnknownTask),
        }
    }
}
