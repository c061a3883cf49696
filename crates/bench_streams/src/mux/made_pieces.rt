use mux_writer::{Filled, PieceSource};
use shelf_io::Fault;
use stream_constants::packets::PAYLOAD_BYTES;

/// Pieces of one byte over and over, its value and their length by their numbers. It has every piece, and tells none.
#[derive(Drop)]
pub struct MadePieces {
    /// How many were asked for.
    pub calls: u64,
}

impl PieceSource for MadePieces {
    ghost use Rattle.std.specs.Prelude.{None};
    ghost use Rattle.std.proofs.Common.{rules};

    ghost told = { λ _. None };

    ghost has = { λ _ _ _ _. Unit {0} };

    ghost faults = { λ _. 0 };

    ghost keeps = { λ _ _. Unit {0} };

    fn piece(
        &mut self,
        stream: u32,
        item: u32,
        piece: u32,
        into: &mut [u8; PAYLOAD_BYTES],
    ) -> Result<Filled, Fault> {
        self.calls = self.calls.wrapping_add(1);
        into.fill((stream % 16 * 16 + piece % 16) as u8);
        Ok(Filled {
            bytes: if piece % 10 == 9 {
                (item % 184) as u8 + 1
            } else {
                184
            },
            start: piece == 0,
        })
    }

    ghost keeps_itself = { Prim.search rules };

    ghost keeps_on = { Prim.search rules };
}
