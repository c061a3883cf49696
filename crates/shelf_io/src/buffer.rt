ghost use Rattle.std.specs.Prelude.{◌≡◌, drop};
ghost use Rattle.shelf_io.specs.Buffer.{CopiesFront};

/// Copies as many bytes as fit into the front of a buffer, and answers how many.
pub fn copy_front(bytes: &[u8], buf: &mut [u8]) -> usize
    ensures { CopiesFront bytes.now buf.old buf.new result }
{
    let count = bytes.len().min(buf.len());
    buf[..count].copy_from_slice(&bytes[..count]);
    count
}

/// The bytes from a place on: none at or past the end.
pub fn bytes_from(bytes: &[u8], place: u64) -> &[u8]
    ensures { result.now ≡ drop place bytes.now }
{
    let start = bytes.len().min(place as usize);
    &bytes[start..]
}
