//! Fields of a row, without the blanks round them. The functions meet `specs/Fields.antt`.
ghost use Rattle.std.specs.Prelude.{◌≡◌};
ghost use Rattle.stop_schedule.specs.Fields.{is_blank as blank, skip_blanks as skipped, drop_blanks as dropped, trimmed as without_blanks};

// Whether a byte is a space or a tab.
fn is_blank(byte: u8) -> bool
    ensures { result ≡ blank byte }
{
    byte == b' ' || byte == b'\t'
}

// The bytes from the first that is no blank.
fn skip_blanks(mut bytes: &[u8]) -> &[u8]
    ensures { result.now ≡ skipped bytes.now }
{
    while let [first, rest @ ..] = bytes {
        if !is_blank(*first) {
            break;
        }
        bytes = rest;
    }
    bytes
}

// The bytes up to the last that is no blank.
fn drop_blanks(mut bytes: &[u8]) -> &[u8]
    ensures { result.now ≡ dropped bytes.now }
{
    while let [rest @ .., last] = bytes {
        if !is_blank(*last) {
            break;
        }
        bytes = rest;
    }
    bytes
}

/// The bytes without the spaces and tabs at both ends.
pub(crate) fn trimmed(bytes: &[u8]) -> &[u8]
    ensures { result.now ≡ without_blanks bytes.now }
{
    drop_blanks(skip_blanks(bytes))
}
