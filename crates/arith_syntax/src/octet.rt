//! An octet of a text, or of what is behind it.

ghost use Rattle.std.specs.Prelude.{◌≡◌, slice_index};

/// The octet at a place, and 0, which stands in no token, behind the end.
pub(crate) fn octet_at(text: &[u8], place: usize) -> u8
    ensures { result ≡ slice_index text.now place }
{
    match text.get(place) {
        Some(octet) => *octet,
        None => 0,
    }
}
