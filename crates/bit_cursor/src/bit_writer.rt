ghost use Rattle.std.specs.Prelude.{◌≡◌, ◌≢◌, ◌+◌, ◌%◌, ◌<◌, ◌≤◌, ◌^◌, [], false, is_err, OnOk, OnErr, IsErrOf};
ghost use Rattle.shelf_io.specs.Counts.{Rose};
ghost use Rattle.bit_lists.specs.Bits.{bits_of};

use crate::waiting_bits::WaitingBits;
use shelf_io::{Fault, Sink, put_all};

/// Puts bits into a sink, most significant bit of each byte first. It borrows the sink, and adds to what that holds.
///
/// After a fault it is stopped: a front of the bytes of all that was put went out, and no call but `is_stopped` may
/// follow. What was put is whole in the sink only after `finish`.
#[derive(Drop)]
pub struct BitWriter<'a, K: Sink> {
    sink: &'a mut K,
    waiting: WaitingBits,
    stopped: bool,
}

impl<'a, K: Sink> BitWriter<'a, K> {
    ghost use Rattle.bit_cursor.specs.BitWriter.{sink_of, waiting_in, is_stopped, told_by, odd_bits, zeros_to_byte, Gets, GetsFront, Writes};

    /// A writer behind what the sink holds.
    pub fn new(sink: &'a mut K) -> Self
        ensures same_sink { (sink_of result).ghost_name ≡ sink.entry.ghost_name }
        ensures sink { (sink_of result).now ≡ sink.old }
        ensures none_waits { waiting_in result ≡ [] }
        ensures goes { is_stopped result ≡ false }
    {
        BitWriter {
            sink,
            waiting: WaitingBits::new(),
            stopped: false,
        }
    }

    /// Puts a number in n bits (uimsbf of ISO/IEC 13818-2, 5.2), n at most 32. A fault is the sink's own.
    #[inline]
    pub fn put_bits(&mut self, value: u32, n: u32) -> Result<(), Fault>
        requires goes { is_stopped self.old ≡ false }
        requires number { value < 2 ^ n }
        requires width { n ≤ 32 }
        ensures writes { Writes K.written K.faults K.keeps self.old self.new result (bits_of n value) }
        ensures odd { OnOk result (odd_bits self.new ≡ (odd_bits self.old + n) % 8) }
    {
        let Some(bytes) = self.waiting.push(value, n) else {
            return Ok(());
        };
        let result = put_all(self.sink, &bytes);
        self.stopped = result.is_err();
        result
    }

    /// Puts the least zero bits to a whole byte, none where nothing stands behind one. A fault is the sink's own.
    pub fn align_zero(&mut self) -> Result<(), Fault>
        requires goes { is_stopped self.old ≡ false }
        ensures writes { Writes K.written K.faults K.keeps self.old self.new result (zeros_to_byte (odd_bits self.old)) }
        ensures whole { OnOk result (odd_bits self.new ≡ 0) }
    {
        let odd = self.waiting.count() % 8;
        self.put_bits(0, (8 - odd) % 8)
    }

    /// Hands out what waits, so that the sink holds all that was put, which must be whole bytes. A fault is the sink's
    /// own, and then a front of these bytes went out.
    pub fn finish(self) -> Result<(), Fault>
        requires goes { is_stopped self ≡ false }
        requires whole { odd_bits self ≡ 0 }
        ensures ok { OnOk result (Gets (told_by K.written self.entry) (K.written self.exit.0.now) (waiting_in self.entry) [] []) }
        ensures err { OnErr result (GetsFront (told_by K.written self.entry) (K.written self.exit.0.now) (waiting_in self.entry) []) }

        ensures failed { IsErrOf result Fault.Failed → Rose (K.faults (sink_of self.entry).now) (K.faults self.exit.0.now) }
        ensures never_missing { result ≢ Err Fault.Missing }
        ensures faults { K.faults (sink_of self.entry).now ≤ K.faults self.exit.0.now }
        ensures keeps { K.keeps (sink_of self.entry).now self.exit.0.now }
    {
        let BitWriter {
            sink,
            waiting,
            stopped: _,
        } = self;
        let count = waiting.count() / 8;
        let bytes = waiting.filled_up();
        put_all(sink, &bytes[..count as usize])
    }

    /// Whether a fault came.
    pub fn is_stopped(&self) -> bool
        ensures { result ≡ is_stopped self.now }
    {
        self.stopped
    }
}
