// A buffer for a whole file.
ghost use Rattle.std.specs.Prelude.{◌≡◌, length};

// One byte more than an image may have, so that a file that is too long is seen to be.
pub fn for_file() -> [u8; 1048577]
    ensures { 1048577 ≡ length result }
{
    [0; 1048577]
}
