//! Where pictures begin in a video stream.
ghost use Rattle.std.specs.Prelude.{◌≡◌, ◌==◌, ◌≤◌, ◌<◌, length};
ghost use Rattle.es_units.specs.StartCodes.{has_code};
ghost use Rattle.es_units.specs.Pictures.{is_in_group, begins_picture, first_picture};

use stream_constants::start_codes::{GROUP, GROUP_HEADER_BYTES, PICTURE};

/// Where the first picture begins from one place of a video stream up to another, or none where none begins (6.2.3). Takes no memory.
pub fn find_picture(es: &[u8], from: usize, end: usize) -> Option<usize>
    requires { end ≤ length es.now }
    ensures { result ≡ first_picture es.now from end }
{
    for at in from..end {
        if begins_picture(es, at) {
            return Some(at);
        }
    }
    None
}

/// True where a picture begins at a place.
fn begins_picture(es: &[u8], at: usize) -> bool
    requires { at < length es.now }
    ensures { result ≡ begins_picture es.now at }
{
    has_code(es, at, PICTURE) && !is_in_group(es, at)
}

/// True where a group of pictures header reaches over a place.
fn is_in_group(es: &[u8], at: usize) -> bool
    requires { at < length es.now }
    ensures { result ≡ is_in_group es.now at }
{
    let first = (at + 1).saturating_sub(GROUP_HEADER_BYTES);
    for group in first..at {
        if has_code(es, group, GROUP) {
            return true;
        }
    }
    false
}

/// True where a start code with this value stands at a place.
fn has_code(es: &[u8], at: usize, value: u8) -> bool
    requires { at < length es.now }
    ensures { result ≡ has_code (λ found. found == value) es.now at }
{
    es.len() - at > 3 && es[at] == 0 && es[at + 1] == 0 && es[at + 2] == 1 && es[at + 3] == value
}
