//! What stands before the first word of a statement.

ghost use Rattle.std.specs.Prelude.{◌≡◌, ◌<◌, ◌≤◌, ◌+◌, length, slice_index};
ghost use Rattle.std.specs.List.{prefix_len};
ghost use Rattle.sqlite_syntax.specs.Lex.{comment_len};
ghost use Rattle.sql_cells.specs.Parts.{begins_with, does, gap_len, is_blank, is_dotted, is_within, past_gaps};

/// The octet at a place, or 0 past the end.
pub(crate) fn octet(text: &[u8], at: usize) -> u8
    ensures { result ≡ slice_index text.now at }
{
    if at < text.len() { text[at] } else { 0 }
}

/// Whether an octet is a blank of SQL.
pub(crate) fn is_blank(octet: u8) -> bool
    ensures { result ≡ is_blank octet }
{
    octet == b' ' || octet == b'\t' || octet == b'\n' || octet == 12 || octet == b'\r'
}

/// Whether a text begins with these two octets.
pub(crate) fn begins_with(a: u8, b: u8, text: &[u8]) -> bool
    ensures { result ≡ begins_with a b text.now }
{
    octet(text, 0) == a && octet(text, 1) == b
}

/// How long the first line of a text is.
pub(crate) fn line_len(text: &[u8]) -> usize
    ensures value { result ≡ prefix_len is_within text.now }
    ensures within { result ≤ length text.now }
{
    let mut len = 0;
    while len < text.len() && text[len] != b'\n' {
        len += 1;
    }
    len
}

/// How long a comment is after its beginning, with its end or up to the text's.
fn comment_len(text: &[u8]) -> usize
    ensures value { result ≡ comment_len text.now }
    ensures within { result ≤ length text.now }
{
    for (at, octet_here) in text.iter().enumerate() {
        if *octet_here == 0 {
            return at;
        }
        if *octet_here == b'*' && octet(text, at + 1) == b'/' {
            return at + 2;
        }
    }
    text.len()
}

/// How long the blank or the comment is that a text begins with, or 0.
pub(crate) fn gap_len(text: &[u8]) -> usize
    ensures value { result ≡ gap_len text.now }
    ensures within { result ≤ length text.now }
{
    if is_blank(octet(text, 0)) {
        1
    } else if begins_with(b'-', b'-', text) {
        2 + line_len(&text[2..])
    } else if begins_with(b'/', b'*', text) && octet(text, 2) != 0 {
        2 + comment_len(&text[2..])
    } else {
        0
    }
}

/// What a text has after blanks and comments.
pub(crate) fn past_gaps(text: &[u8]) -> &[u8]
    ensures value { result.now ≡ past_gaps text.now }
    ensures shorter { length result.now ≤ length text.now }
{
    let mut rest = text;
    'gaps: loop {
        let gap = gap_len(rest);
        if gap == 0 {
            return rest;
        }
        rest = &rest[gap..];
    }
}

/// Whether a text does something: it has more than blanks, comments and a semicolon.
pub(crate) fn does(text: &[u8]) -> bool
    ensures { result ≡ does text.now }
{
    let rest = past_gaps(text);
    !(rest.is_empty() || octet(rest, 0) == b';')
}

/// Whether the first word of a text begins with a dot.
pub(crate) fn is_dotted(text: &[u8]) -> bool
    ensures value { result ≡ is_dotted text.now }
{
    octet(past_gaps(text), 0) == b'.'
}
