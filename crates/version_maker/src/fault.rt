ghost use Rattle.std.specs.Prelude.{◌≡◌, None};
ghost use Rattle.picture_reader.specs.PictureFault.{refusal_told};

use list_types::OutOfMemory;
use picture_reader::PictureFault;

/// The fault of a call that refuses nothing.
pub fn want_of_memory(fault: PictureFault) -> OutOfMemory
    requires { refusal_told fault ≡ None }
{
    match fault {
        PictureFault::OutOfMemory => OutOfMemory,
        _ => unreachable!(),
    }
}
