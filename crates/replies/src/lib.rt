// The line for each answer, on standard output, and the status that goes with it.
#![tactic(auto)]

use paper::{BoxAnswer, CheckAnswer, Home, LookupAnswer, Moved, Point, Refusal, Sound};
use reasons::Status;

// A word and a number behind it, each in a write of its own. Only the last words of an answer tell whether they could be written: of small pieces
// those that fit use up the room, so that the last words often find none where a piece was lost.
fn say_number(rt: &HostRuntime, word: &str, number: u64) {
    let _ = print!(rt; "{word}");
    let _ = print!(rt; "{number}");
}

// Says the last words of an answer. Where they cannot be written, the answer was not given: the reason is on standard error.
fn end(rt: &HostRuntime, words: &[u8], status: Status) -> Status {
    match rt.write_all(words) {
        Ok(()) => status,
        Err(why) => {
            reasons::fail(&rt.stderr(), b"composthum: standard output", &why);
            Status::Failed
        }
    }
}

pub fn refused(rt: &HostRuntime, r: Refusal) -> Status {
    say_number(rt, "refused ", u64::from(r.number));
    say_number(rt, " ", u64::from(r.major));
    say_number(rt, " ", u64::from(r.minor));
    let _ = print!(rt; "  ");
    let _ = print!(rt; "{}", reasons::of(r.number));
    end(rt, b"\n", Status::Refused)
}

pub fn checked(rt: &HostRuntime, answer: CheckAnswer) -> Status {
    match answer {
        Err(r) => refused(rt, r),
        Ok(Sound { parts, rows }) => {
            say_number(rt, "sound ", u64::from(parts));
            say_number(rt, " parts ", u64::from(rows));
            end(rt, b" rows\n", Status::Done)
        }
    }
}

pub fn moved(rt: &HostRuntime, answer: Moved) -> Status {
    say_number(rt, "moved ", u64::from(answer.moved));
    say_number(rt, " objects ", u64::from(answer.length));
    say_number(rt, " bytes ", u64::from(answer.rows));
    end(rt, b" rows\n", Status::Done)
}

// The parts of a set, each with a blank before it.
fn say_parts(rt: &HostRuntime, set: u64) {
    for part in part_set::parts(set) {
        say_number(rt, " ", u64::from(part));
    }
}

pub fn found(rt: &HostRuntime, answer: LookupAnswer) -> Status {
    match answer {
        Err(r) => refused(rt, r),
        Ok(Home { residence, owner }) => {
            say_number(rt, "owner ", u64::from(owner.0));
            let _ = print!(rt; " residence");
            say_parts(rt, residence);
            end(rt, b"\n", Status::Done)
        }
    }
}

// A real number, in a buffer that is long enough for any.
fn say_real(rt: &HostRuntime, x: f64) {
    let mut text = [0u8; 1387];
    let count = real::put_real(x, &mut text);
    let _ = rt.write_all(&text[..count]);
}

fn say_point(rt: &HostRuntime, p: Point) {
    say_real(rt, p.x);
    let _ = print!(rt; " ");
    say_real(rt, p.y);
    let _ = print!(rt; " ");
    say_real(rt, p.z);
}

pub fn boxed(rt: &HostRuntime, answer: BoxAnswer) -> Status {
    match answer {
        Err(r) => refused(rt, r),
        Ok(None) => end(rt, b"no vertex\n", Status::Done),
        Ok(Some(b)) => {
            say_point(rt, b.least);
            let _ = print!(rt; " .. ");
            say_point(rt, b.greatest);
            end(rt, b"\n", Status::Done)
        }
    }
}

// The lines of a sound set.
fn listed(rt: &HostRuntime, image: &[u8]) -> Status {
    let mut out = [0u8; 262144];
    match text::write_listing(image, &mut out) {
        Some(count) => end(rt, &out[..count], Status::Done),
        None => Status::Failed,
    }
}

pub fn listing(rt: &HostRuntime, image: &[u8]) -> Status {
    if 65536 < image.len() {
        return end(
            rt,
            b"too long  a listing is of an image of at most 65,536 bytes\n",
            Status::Refused,
        );
    }
    match sound::check(image) {
        Err(r) => refused(rt, r),
        Ok(_) => listed(rt, image),
    }
}
