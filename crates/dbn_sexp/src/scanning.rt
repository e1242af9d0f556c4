//! The pieces of a text: tokens, comments and blanks.

ghost use Rattle.std.specs.Prelude.{◌≡◌, ◌+◌, ◌≤◌, false, length};
ghost use Rattle.std.specs.List.{count_by, position};
ghost use Rattle.dbn_sexp.specs.Tokens.{is_blank, ends_word, is_line_feed, text_rest, more, piece_len};

/// Whether the byte is white space.
pub fn is_blank(byte: u8) -> bool
    ensures { result ≡ is_blank byte }
{
    byte == b' ' || byte == b'\t' || byte == b'\n' || byte == b'\r'
}

/// Whether a word ends before the byte.
fn ends_word(byte: u8) -> bool
    ensures { result ≡ ends_word byte }
{
    is_blank(byte) || byte == b'(' || byte == b')' || byte == b';' || byte == b'"'
}

/// How many bytes stand behind the opening quote of a text, the closing one counted; all where it isn't closed.
fn text_rest(bytes: &[u8]) -> usize
    ensures { result ≡ text_rest false bytes.now }
{
    let mut escaped = false;
    for (i, byte) in bytes.iter().enumerate() {
        if escaped {
            escaped = false;
        } else if *byte == b'"' {
            return i + 1;
        } else {
            escaped = *byte == b'\\';
        }
    }
    bytes.len()
}

/// The place of the first line feed.
fn first_line_feed(bytes: &[u8]) -> Option<usize>
    ensures { result ≡ position is_line_feed bytes.now }
{
    bytes.iter().position(|byte| *byte == b'\n')
}

/// The place of the first byte that no word holds.
fn first_outside_word(bytes: &[u8]) -> Option<usize>
    ensures { result ≡ position ends_word bytes.now }
{
    bytes.iter().position(|byte| ends_word(*byte))
}

/// How many bytes behind the first one belong to the same comment, text or word.
#[tactic(auto, using(crate::proofs::ScanLaws::scan_laws), unfolding(crate::specs::Tokens::more))]
fn more(first: u8, bytes: &[u8]) -> usize
    ensures count { result ≡ more first bytes.now }
    ensures within { result ≤ length bytes.now }
{
    if first == b';' {
        first_line_feed(bytes).unwrap_or(bytes.len())
    } else if first == b'"' {
        text_rest(bytes)
    } else if ends_word(first) {
        0
    } else {
        first_outside_word(bytes).unwrap_or(bytes.len())
    }
}

/// How many bytes the token, comment or blank takes that stands first.
pub fn piece_len(bytes: &[u8]) -> usize
    ensures count { result ≡ piece_len bytes.now }
    ensures within { result ≤ length bytes.now }
{
    match bytes {
        [] => 0,
        [first, rest @ ..] => 1 + more(*first, rest),
    }
}

/// How many line feeds the bytes hold.
pub fn line_feeds(bytes: &[u8]) -> usize
    ensures { result ≡ count_by is_line_feed bytes.now }
{
    bytes.iter().filter(|byte| **byte == b'\n').count()
}
