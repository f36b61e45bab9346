//! A piece of a message in a feed.
ghost use Rattle.std.specs.Prelude.{◌+◌, ◌<◌, ◌^◌, length};

// A piece of a message: where its tag stands and where its bytes begin, counted from the feed's first byte, and the
// bytes.
#[derive(Clone, Copy)]
pub struct Piece<'a> {
    pub tag: u64,
    pub start: u64,
    pub bytes: &'a [u8],
    ghost within: { start + length bytes.now < 2 ^ 64 },
}
