// What each refusal means, in the words of document 01, why the system refused a call, and how a run of the command ends.
#![tactic(auto)]

mod status;
mod system;

pub use status::Status;
pub use system::fail;

// What the refusal with this number means.
pub fn of(number: u32) -> &'static str {
    match number {
        1 => "image over 1,048,576 bytes",
        2 => "image under 8 bytes",
        3 => "mark differs",
        4 => "version is not 1",
        5 => "part count 0 or above 64, or a header zero byte is not zero",
        6 => "counts and rows do not fill the image exactly",
        7 =>
            "a row field is outside its layout, owner or a residence bit names no part, or own bit is missing",
        8 => "rows out of order",
        9 => "boundary broken",
        10 => "a remote copy does not agree",
        11 => "residence broken",
        12 => "owner wrong",
        13 => "list: bytes left over, nonzero zeros, dimension above 3, not ascending",
        14 => "destination names no part",
        15 => "no such entity",
        16 => "entity is not a partition object",
        17 => "working buffer short",
        18 => "result over 1,048,576 bytes",
        19 => "result longer than the output buffer",
        20 => "box of a part that is not there",
        _ => "lookup finds no entity",
    }
}
