// Prints the listing of the image on standard input: the lines of a sound set, the line of a refusal, or `too long` where there are more than
// 65,536 bytes.
#![tactic(auto)]

fn main(rt: HostRuntime) {
    let mut image = [0u8; 65537];
    let read = files::read_full(&mut rt.stdin(), &mut image);
    let mut out = [0u8; 262144];
    if let Some(count) = text::write_listing(&image[..read], &mut out) {
        let _ = rt.write_all(&out[..count]);
    }
}
