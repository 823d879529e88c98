// The listing of an image: its text, written into a lent buffer. Each writer puts its bytes from `at` on, as far as the buffer has room for
// them, and answers where the next one goes on.
#![tactic(auto)]

pub mod answers;
pub mod lines;

ghost use Rattle.paper.specs.Listing.{listing_of};
ghost use Rattle.decimal.specs.Writing.{Wrote};
ghost use Rattle.text.specs.Listed.{Listed};

use decimal::writing::put_text;

// The text for what was read, as far as the buffer has room for it.
fn put_listing(image: &[u8], out: &mut [u8]) -> usize
    ensures { Wrote out.old 0 (listing_of image.now) out.new result }
{
    if 65536 < image.len() {
        return put_text(out, 0, b"too long\n");
    }
    answers::put_answer(image, out)
}

// The listing of what was read: how many bytes the text has, which stand at the front of the buffer, or that the buffer is too short. One of
// 262,144 bytes is long enough for any.
pub fn write_listing(image: &[u8], out: &mut [u8]) -> Option<usize>
    ensures { Listed image.now out.old out.new result }
{
    let end = put_listing(image, out);
    if out.len() < end {
        return None;
    }
    Some(end)
}
