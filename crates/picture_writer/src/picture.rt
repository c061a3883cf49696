ghost use Rattle.std.specs.Prelude.{◌≡◌, ◌++◌, ℕ, List, Option, OnOk, OnErr, IsErrOf};
ghost use Rattle.std.specs.List.{flat_map, AllByRecursion};
ghost use Rattle.shelf_io.specs.Causes.{SinkCauses};
ghost use Rattle.bit_cursor.specs.BitWriter.{AddsBits};
ghost use Rattle.syntax_types.specs.declared.picture.SeqState.{SeqState};
ghost use Rattle.picture_grammar.specs.Picture.{IsCoding, IsLawful, SpellsPicture};
ghost use Rattle.picture_grammar.specs.Written.{IsWritten, written_picture};
ghost use Rattle.macroblock_writer.specs.Private.WholeSlices.{written_whole_slice};
ghost use Rattle.picture_writer.specs.WrittenPicture.{AddsFront, written_end};
ghost use Rattle.picture_writer.specs.Private.Slices.{CanBeWritten};

use crate::slices::{write_end, write_slices};
use bit_cursor::BitWriter;
use shelf_io::{Fault, Sink, put_all};
use syntax_types::{Picture, PictureParameters};

/// Writes a lawful picture (ISO/IEC 13818-2, 6.2): its head, each slice behind its start code with the least zero bits to
/// a whole byte behind it, and the sequence end code where it stands. After a fault, which is the sink's own, a front of
/// these bytes was added.
pub fn write_picture<K: Sink>(to: &mut K, picture: &Picture) -> Result<(), Fault>
    requires lawful { IsLawful picture.now }
    ensures ok { OnOk result (AddsBits (K.written to.old) (K.written to.new) (written_picture picture.now)) }
    ensures err { OnErr result (AddsFront (K.written to.old) (K.written to.new) (written_picture picture.now)) }
    ensures read_back { (before : Option SeqState) (bytes written : List ℕ) →
        SpellsPicture before picture.now bytes → IsWritten picture.now written → SpellsPicture before picture.now written }

    ensures causes { SinkCauses K.faults (IsErrOf result Fault.Failed) (IsErrOf result Fault.Missing) to.old to.new }
    ensures keeps { K.keeps to.old to.new }
{
    put_all(to, picture.head.as_slice())?;
    write_behind_head(to, picture)
}

// The slices and the sequence end code.
fn write_behind_head<K: Sink>(to: &mut K, picture: &Picture) -> Result<(), Fault>
    requires coding { IsCoding picture.now.coding }
    requires spelled { AllByRecursion (CanBeWritten picture.now.seq picture.now.coding) picture.now.slices }
    ensures ok { OnOk result (AddsBits (K.written to.old) (K.written to.new)
        (flat_map (written_whole_slice picture.now.coding) picture.now.slices ++ written_end picture.now.sequence_end)) }
    ensures err { OnErr result (AddsFront (K.written to.old) (K.written to.new)
        (flat_map (written_whole_slice picture.now.coding) picture.now.slices ++ written_end picture.now.sequence_end)) }

    ensures causes { SinkCauses K.faults (IsErrOf result Fault.Failed) (IsErrOf result Fault.Missing) to.old to.new }
    ensures keeps { K.keeps to.old to.new }
{
    let mut writer = BitWriter::new(to);
    let parameters = PictureParameters {
        seq: &picture.seq,
        coding: &picture.coding,
    };
    write_slices(&mut writer, parameters, picture.slices.as_slice())?;
    write_end(&mut writer, picture.sequence_end)?;
    writer.finish()
}
