use version_maker::{UnitVersion, VersionSize};
use version_table::limits::VERSIONS_MOST;

/// The bytes and the distortion of each version over all units.
#[derive(Drop)]
pub struct Totals {
    sizes: [VersionSize; VERSIONS_MOST],
    count: usize,
}

impl Totals {
    pub fn new() -> Totals {
        Totals {
            sizes: [VersionSize::default(); VERSIONS_MOST],
            count: 0,
        }
    }

    /// With the sizes of one more unit.
    pub fn add(&mut self, sizes: &[VersionSize]) {
        for (at, size) in sizes.iter().enumerate() {
            if at < VERSIONS_MOST {
                let sum = self.sizes[at];
                self.sizes[at] = VersionSize {
                    bytes: sum.bytes.wrapping_add(size.bytes),
                    distortion: sum.distortion.wrapping_add(size.distortion),
                };
            }
        }
        self.count = sizes.len();
    }

    /// How many versions there were.
    pub fn count(&self) -> usize {
        self.count
    }

    /// The sum of the version with this number.
    pub fn size(&self, number: usize) -> VersionSize {
        if number < VERSIONS_MOST {
            self.sizes[number]
        } else {
            VersionSize::default()
        }
    }
}

/// Whether the sizes aren't those of the versions.
pub fn differ(sizes: &[VersionSize], versions: &[UnitVersion]) -> bool {
    if sizes.len() != versions.len() {
        return true;
    }
    for (size, version) in sizes.iter().zip(versions) {
        if size.bytes != version.bytes.len() as u64 || size.distortion != version.distortion {
            return true;
        }
    }
    false
}
