//! Empty lines, and where a head ends. The definitions are those of `specs/Ends.antt`.
ghost use Rattle.std.specs.Prelude.{◌≡◌, reverse};
ghost use Rattle.http_talk.specs.Ends as ends;

/// The most bytes that a head may have, with the empty lines at its front.
pub const HEAD_LIMIT: usize = 16_384;

// Whether LF stands at the front.
fn begins_feed(bytes: &[u8]) -> bool
    ensures { result ≡ ends.begins_feed bytes.now }
{
    match bytes.split_first() {
        Some((first, _)) => *first == b'\n',
        None => false,
    }
}

// Whether an empty line stands at the front.
fn begins_empty(bytes: &[u8]) -> bool
    ensures { result ≡ ends.begins_empty bytes.now }
{
    match bytes.split_first() {
        Some((first, rest)) => *first == b'\n' || (*first == b'\r' && begins_feed(rest)),
        None => false,
    }
}

/// The bytes without the empty lines at their front.
pub(crate) fn skip_empty(bytes: &[u8]) -> &[u8]
    ensures { result.now ≡ ends.skip_empty bytes.now }
{
    let mut rest = bytes;
    while begins_empty(rest) {
        let (_, after) = rest.split_at(1);
        rest = after;
    }
    rest
}

/// How many lines a head has, without the empty ones at its front.
pub(crate) fn line_count(head: &[u8]) -> usize
    ensures { result ≡ ends.line_count head.now }
{
    skip_empty(head)
        .iter()
        .filter(|byte| **byte == b'\n')
        .count()
}

// Whether LF stands at the end.
fn ends_feed(bytes: &[u8]) -> bool
    ensures { result ≡ ends.begins_feed (reverse bytes.now) }
{
    match bytes.split_last() {
        Some((last, _)) => *last == b'\n',
        None => false,
    }
}

// Whether LF stands at the end, or CR after LF.
fn ends_line(bytes: &[u8]) -> bool
    ensures { result ≡ ends.begins_empty (reverse bytes.now) }
{
    match bytes.split_last() {
        Some((last, front)) => *last == b'\n' || (*last == b'\r' && ends_feed(front)),
        None => false,
    }
}

// Whether an empty line stands at the end, after another line.
fn is_end(bytes: &[u8]) -> bool
    ensures { result ≡ ends.is_end (reverse bytes.now) }
{
    match bytes.split_last() {
        Some((last, front)) => *last == b'\n' && ends_line(front),
        None => false,
    }
}

/// Whether the bytes, without the empty lines at their front, end with an empty line.
pub(crate) fn ends_head(bytes: &[u8]) -> bool
    ensures { result ≡ ends.ends_head bytes.now }
{
    is_end(skip_empty(bytes))
}
