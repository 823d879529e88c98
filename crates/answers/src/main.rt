// Answers one question from standard input, for comparison with vectors: a dimension, an entity number and a part, 32 bits each, and then an
// image of at most 65,536 bytes. Prints a line each for check, lookup and box: the refusal's number and place, then the values (of a box only
// whether there is one: coordinates, and images of every size, are compared through the C calls).
#![tactic(auto)]

use paper::{BoxAnswer, CheckAnswer, Home, LookupAnswer, Number, Part, Refusal, Sound};

// A line: what was asked, the refusal's number and place, or 0 for each where there is none, and the values. Each word and number is a write of its
// own, so that as much of a line stands there as there is room for.
fn show(rt: &HostRuntime, asked: &str, refusal: Option<Refusal>, values: &[u64]) {
    let place = match refusal {
        Some(r) => [r.number, r.major, r.minor],
        None => [0; 3],
    };
    let _ = print!(rt; "{asked}");
    for number in place {
        say(rt, u64::from(number));
    }
    for &value in values {
        say(rt, value);
    }
    let _ = print!(rt; "\n");
}

fn say(rt: &HostRuntime, number: u64) {
    let _ = print!(rt; " ");
    let _ = print!(rt; "{number}");
}

fn show_check(rt: &HostRuntime, answer: CheckAnswer) {
    match answer {
        Err(r) => show(rt, "check", Some(r), &[0, 0]),
        Ok(Sound { parts, rows }) => show(rt, "check", None, &[u64::from(parts), u64::from(rows)]),
    }
}

fn show_lookup(rt: &HostRuntime, answer: LookupAnswer) {
    match answer {
        Err(r) => show(rt, "lookup", Some(r), &[0, 0]),
        Ok(Home { residence, owner }) => {
            show(rt, "lookup", None, &[u64::from(owner.0), residence])
        }
    }
}

fn show_box(rt: &HostRuntime, answer: BoxAnswer) {
    match answer {
        Err(r) => show(rt, "box", Some(r), &[0]),
        Ok(around) => show(rt, "box", None, &[around.is_some() as u64]),
    }
}

fn main(rt: HostRuntime) {
    let mut buffer = [0u8; 65548];
    let n = files::read_full(&mut rt.stdin(), &mut buffer);
    if n < 12 {
        let _ = println!(rt; "no question");
        return;
    }
    let dimension = buffer[0];
    let number = field::word_at(&buffer, 4);
    let part = field::word_at(&buffer, 8);
    let image = &buffer[12..n];
    show_check(&rt, sound::check(image));
    show_lookup(&rt, query::lookup(image, dimension, Number(number)));
    show_box(&rt, query::box_of(image, Part(part)));
}
