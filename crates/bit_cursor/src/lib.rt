//! Bits of a source and of a sink of bytes, most significant bit first (ISO/IEC 13818-1, 2.2.6 and 13818-2, 5.2).
//!
//! `BitReader` gives the bits of a `Source` in order, however the source cuts its bytes, and takes no byte before a bit
//! of it is asked for. It promises which bits each answer holds, where the source tells its bytes, and that a fault is
//! the source's own. `BitWriter` puts bits into a `Sink`: behind what the sink held come the bytes whose bits are those
//! that were put, in order, and after a fault, which is the sink's own, a front of these bytes. Neither takes memory of
//! its own. Stands on `shelf_io` and on the words of `bit_lists`.
#![tactic(auto)]

mod bit_reader;
mod bit_writer;
mod fault;
mod waiting_bits;

pub use bit_reader::{AHEAD_BITS, BitReader};
pub use bit_writer::BitWriter;
pub use fault::BitFault;
