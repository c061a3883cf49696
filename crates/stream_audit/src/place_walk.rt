//! What takes the packets of a PID one after the other.
ghost use Rattle.std.specs.Prelude.{◌∷◌, ◌++◌, ◌<◌, ◌≤◌, ◌^◌, [], List};
ghost use Rattle.stream_constants.specs.declared.packets.TheConstants.{PAYLOAD_BYTES};
ghost use Rattle.ts_demux.specs.declared.pid_places.Place.{Place};

use ts_demux::Place;

/// A walk over the packets of a PID, in the order of their file.
pub trait PlaceWalk: Drop {
    /// A walk that began as the first one has taken these packets.
    ghost has_taken: { Self → List Place → Self → Type 0 };

    /// The next packet comes.
    fn see(&mut self, place: &Place)
        requires number { place.now.packet < 2 ^ 32 }
        requires payload { place.now.payload ≤ PAYLOAD_BYTES }
        requires taken { (start : Self) × (places : List Place) × has_taken start places self.old }
        ensures { (start : Self) (places : List Place) → has_taken start places self.old → has_taken start (places ++ place.now ∷ []) self.new };
}
