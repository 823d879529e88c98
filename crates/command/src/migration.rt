// The task `migrate`: an image moved by a list, the new image in place of the file OUT. Behind its own three arguments stand two that the
// script adds: a name beside OUT that ends in XXXXXX, for the new file until it is whole, and the new file's mode.
use crate::room;
use reasons::Status;

// The working buffer has a word for each row that an image can have.
fn moved_by(rt: &HostRuntime, image: &[u8], list: &[u8], mode: u32) -> Status {
    let mut out = room::for_file();
    let mut work = [0u64; paper::ROWS];
    match migrate::migrate(image, list, &mut out, &mut work) {
        Err(r) => replies::refused(rt, r),
        Ok(moved) => {
            if !files::replace_argument(rt, 4, 5, mode, &out[..moved.length as usize]) {
                return Status::Failed;
            }
            replies::moved(rt, moved)
        }
    }
}

// The image moved by the list in the file that the third argument names, in place of OUT, and the status; none where the reason is on standard
// error. A list that names each entity of an image once has at most 174,760 bytes; one of more than 1,048,576 is not judged at all.
pub fn migrate(rt: &HostRuntime, image: &[u8]) -> Option<Status> {
    let mode = arguments::number(rt, 6, b"MODE")?;
    let mut list = room::for_file();
    let count = files::read_argument(rt, 3, &mut list)?;
    if paper::IMAGE_BYTES < count {
        let _ = eprintln!(rt; "composthum: the list has more than 1048576 bytes");
        return None;
    }
    Some(moved_by(rt, image, &list[..count], mode))
}
