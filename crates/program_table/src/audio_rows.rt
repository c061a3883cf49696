//! The audio streams of a program of a table.
ghost use Rattle.std.specs.Prelude.{◌≡◌, map, IfOk};
ghost use Rattle.program_table.specs.Table.{audio_row};

use list_types::{ListOf, OutOfMemory};
use program_reader::{AudioPiece, AudioSource};
use std::alloc::Global;
use version_table::AudioPacket;

/// The packets of audio streams, stream by stream.
pub fn rows_of_audios(
    alloc: Global,
    audios: &[AudioSource],
) -> Result<ListOf<ListOf<AudioPacket>>, OutOfMemory>
    ensures { IfOk result (λ rows. rows ≡ map audio_row audios.now) }
{
    let mut rows = ListOf::new(alloc);
    for i in 0..audios.len() {
        let row = row_of_audio(alloc, audios[i].pieces.as_slice())?;
        rows.push(row)?;
    }
    Ok(rows)
}

/// The same of their pieces, without their bytes.
pub fn rows_of_pieces(
    alloc: Global,
    audios: &[ListOf<AudioPiece>],
) -> Result<ListOf<ListOf<AudioPacket>>, OutOfMemory>
    ensures { IfOk result (λ rows. rows ≡ map (λ pieces. map (λ piece. piece.packet) pieces) audios.now) }
{
    let mut rows = ListOf::new(alloc);
    for i in 0..audios.len() {
        let row = row_of_audio(alloc, audios[i].as_slice())?;
        rows.push(row)?;
    }
    Ok(rows)
}

/// The packets of these pieces of an audio stream.
fn row_of_audio(alloc: Global, pieces: &[AudioPiece]) -> Result<ListOf<AudioPacket>, OutOfMemory>
    ensures { IfOk result (λ row. row ≡ map (λ piece. piece.packet) pieces.now) }
{
    let mut row = ListOf::new(alloc);
    for piece in pieces {
        row.push(piece.packet)?;
    }
    Ok(row)
}
