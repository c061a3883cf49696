use list_types::OutOfMemory;
use stream_constants::packets::PAYLOAD_BYTES;
use version_table::Version;
use version_table::limits::VERSIONS_MOST;

/// What a ratio of distortion to packets is multiplied by, so that different ratios stay different as whole numbers.
const RATIO_PARTS: u128 = 1 << 64;

/// A version of a unit at which the lower hull of those turns that its elementary buffer holds.
#[derive(Clone, Copy, Default)]
pub(crate) struct Corner {
    /// Its number among the unit's versions.
    pub version: u8,
    /// Its packets.
    pub packets: u32,
    /// Its distortion.
    pub distortion: u64,
}

/// Adds the corners of a unit's versions of so many bytes at most, from the one of fewest packets to the one of least
/// distortion.
pub(crate) fn add_corners(
    corners: &mut Vec<Corner>,
    versions: &[Version],
    bytes: u64,
) -> Result<(), OutOfMemory> {
    let mut corner = smallest_corner(versions, bytes);
    corners.push(corner)?;
    for _step in 1..VERSIONS_MOST {
        let Some(next) = next_corner(versions, bytes, corner) else {
            return Ok(());
        };
        corners.push(next)?;
        corner = next;
    }
    Ok(())
}

/// The version of fewest packets, and of those the one of least distortion.
fn smallest_corner(versions: &[Version], bytes: u64) -> Corner {
    let mut smallest = Corner::default();
    let mut least = (u32::MAX, u64::MAX);
    let mut number = 0;
    for version in versions {
        let corner = corner_of(*version, number);
        let own = (corner.packets, corner.distortion);
        if u64::from(version.bytes) <= bytes && own < least {
            smallest = corner;
            least = own;
        }
        number = next_number(number);
    }
    smallest
}

/// The next corner behind one: the version that saves most for a packet, and of those the largest.
fn next_corner(versions: &[Version], bytes: u64, from: Corner) -> Option<Corner> {
    let mut best = None;
    let mut most = (0, 0);
    let mut number = 0;
    for version in versions {
        let corner = corner_of(*version, number);
        let own = (saved_ratio(from, corner), corner.packets);
        if u64::from(version.bytes) <= bytes && own > most {
            most = own;
            best = Some(corner);
        }
        number = next_number(number);
    }
    best
}

/// What a step from one corner to another saves for a packet; 0 where it takes no packet more or saves nothing.
fn saved_ratio(from: Corner, to: Corner) -> u128 {
    if to.packets <= from.packets {
        return 0;
    }
    ratio(
        from.distortion.saturating_sub(to.distortion),
        to.packets.saturating_sub(from.packets),
    )
}

/// Distortion for a packet.
pub(crate) fn ratio(distortion: u64, packets: u32) -> u128 {
    u128::from(distortion).saturating_mul(RATIO_PARTS) / u128::from(packets.max(1))
}

/// A version's number, packets and distortion.
fn corner_of(version: Version, number: u8) -> Corner {
    Corner {
        version: number,
        packets: version.bytes.div_ceil(PAYLOAD_BYTES as u32),
        distortion: version.distortion,
    }
}

/// The next number.
fn next_number(number: u8) -> u8 {
    number.saturating_add(1)
}

/// The corner at a place, or one without packets behind the end.
pub(crate) fn corner_at(corners: &[Corner], place: usize) -> Corner {
    match corners.get(place) {
        Some(corner) => *corner,
        None => Corner::default(),
    }
}
