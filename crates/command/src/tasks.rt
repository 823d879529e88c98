// The tasks: each asks the library about the image, prints the answer and gives its status. There is none where something cannot be used: the
// reason is on standard error.
ghost use Rattle.std.specs.Prelude.{min, ◌≡◌};

use crate::{migration, room};
use arguments::Task;
use paper::{Number, Part};
use reasons::Status;

// A dimension as the library takes it: above 3 there is no entity, whichever it is.
fn dimension(n: u32) -> u8
    ensures { result ≡ min n 255 }
{
    n.min(255) as u8
}

fn lookup(rt: &HostRuntime, image: &[u8]) -> Option<Status> {
    let dim = arguments::number(rt, 3, b"DIM")?;
    let number = arguments::number(rt, 4, b"NUMBER")?;
    let found = query::lookup(image, dimension(dim), Number(number));
    Some(replies::found(rt, found))
}

fn box_of(rt: &HostRuntime, image: &[u8]) -> Option<Status> {
    let part = arguments::number(rt, 3, b"PART")?;
    Some(replies::boxed(rt, query::box_of(image, Part(part))))
}

fn answer(rt: &HostRuntime, task: Task, image: &[u8]) -> Option<Status> {
    match task {
        Task::Check => Some(replies::checked(rt, sound::check(image))),
        Task::List => Some(replies::listing(rt, image)),
        Task::Lookup => lookup(rt, image),
        Task::Box => box_of(rt, image),
        Task::Migrate => migration::migrate(rt, image),
    }
}

// The answer about the image in the file that the second argument names.
pub fn on_image(rt: &HostRuntime, task: Task) -> Option<Status> {
    let mut image = room::for_file();
    let count = files::read_argument(rt, 2, &mut image)?;
    answer(rt, task, &image[..count])
}
