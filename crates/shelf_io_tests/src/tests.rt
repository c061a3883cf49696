ghost use Rattle.std.specs.Prelude.{◌≡◌, OnOk, None, codes, if◌then◌else◌};
ghost use Rattle.std.specs.Str.{bytes_eq};
ghost use Rattle.shelf_io.specs.Counts.{with_fault};
ghost use Rattle.shelf_io.specs.Sink.{with_bytes};

use shelf_io::{
    Fault, Reading, Shelf, Sink, SliceSource, Source, VecSink, Writing, put_all, read_file,
    take_full, write_file,
};
use shelf_kinds::{CalmShelf, CountSink, FileShelf, MemShelf, MemSink, OutSink, ShortShelf};
use std::alloc::Global;
use std::fmt::Display;
use std::test::Fail;
use std::{env, fs, io, process};

#[test]
fn a_shelf_in_memory_fails_in_its_chosen_calls_alone(rt: HostRuntime) -> Result<(), Fail> {
    let alloc = rt.alloc();
    let mut shelf = MemShelf::new(alloc, vec![in alloc; 2, 4]?);
    shelf.put_file("a", b"abc")?;
    let mut buf = [0u8; 2];
    let first = [
        shelf.read("a", 1, &mut buf),
        shelf.read("a", 0, &mut buf),
        shelf.append("a", b"de"),
    ];
    let started = shelf.start("a");
    let lacking = shelf.read("b", 0, &mut buf);
    let kept = shelf.file("a") == Some(b"abcde".as_slice());
    assert_eq!(rt; first, [Ok(2), Err(Fault::Failed), Ok(2)]);
    assert_eq!(rt;
        (started, lacking),
        (Err(Fault::Failed), Err(Fault::Missing))
    );
    assert_eq!(rt; (kept, buf), (true, *b"bc"));
    Ok(())
}

#[test]
fn a_calm_shelf_lacks_only_names_that_are_not_held(rt: HostRuntime) -> Result<(), Fail> {
    let alloc = rt.alloc();
    let mut shelf = CalmShelf::new(alloc);
    shelf.put_file("a", b"abc")?;
    let mut buf = [0u8; 4];
    let moved = [
        shelf.read("a", 3, &mut buf),
        shelf.read("b", 0, &mut buf),
        shelf.append("b", b"x"),
    ];
    let started = shelf.start("a");
    let held = [
        shelf.file("a") == Some(b"".as_slice()),
        shelf.file("b") == Some(b"x".as_slice()),
    ];
    assert_eq!(rt; moved, [Ok(0), Err(Fault::Missing), Ok(1)]);
    assert_eq!(rt; (started, held), (Ok(()), [true; 2]));
    Ok(())
}

/// Whether a file's bytes up to one past a limit are these.
fn reads<K: Shelf>(
    alloc: Global,
    shelf: &mut K,
    name: &str,
    limit: u32,
    want: &[u8],
) -> Result<bool, Fault> {
    let bytes = read_file(alloc, shelf, name, u64::from(limit))?;
    Ok(bytes.as_slice() == want)
}

#[test]
fn a_short_shelf_moves_few_bytes_a_call(rt: HostRuntime) -> Result<(), Fail> {
    let alloc = rt.alloc();
    let mut inner = CalmShelf::new(alloc);
    inner.put_file("a", b"abcde")?;
    let mut shelf = ShortShelf::new(inner, 2);
    let mut buf = *b"xyz";
    let moved = [
        shelf.read("a", 1, &mut buf),
        shelf.append("a", b"fgh"),
        shelf.read("b", 0, &mut buf),
    ];
    let held = shelf.file("a") == Some(b"abcdefg".as_slice());
    let written = write_file(&mut shelf, "b", b"abcdef");
    let whole = reads(alloc, &mut shelf, "b", 6, b"abcdef");
    assert_eq!(rt; moved, [Ok(2), Ok(2), Err(Fault::Missing)]);
    assert_eq!(rt;
        (buf, held, written, whole),
        (*b"bcz", true, Ok(()), Ok(true))
    );
    Ok(())
}

#[test]
fn a_file_is_read_one_byte_past_its_limit_and_no_further(rt: HostRuntime) -> Result<(), Fail> {
    let alloc = rt.alloc();
    let mut shelf = CalmShelf::new(alloc);
    write_file(&mut shelf, "a", b"abcdef")?;
    let answers = [
        reads(alloc, &mut shelf, "a", 6, b"abcdef"),
        reads(alloc, &mut shelf, "a", 3, b"abcd"),
        reads(alloc, &mut shelf, "b", 3, b""),
    ];
    assert_eq!(rt; answers, [Ok(true), Ok(true), Err(Fault::Missing)]);
    Ok(())
}

/// A shelf over another one, which keeps count of the places that one of its files was asked for.
#[derive(Drop)]
struct WatchedShelf<'a, K> {
    inner: K,
    name: &'a str,
    asked: u64,
}

impl<'a, K: Shelf> Shelf for WatchedShelf<'a, K> {
    ghost files = { λ shelf. K.files shelf.inner };

    ghost counts = { λ shelf. K.counts shelf.inner };

    ghost asked = { λ shelf name. if bytes_eq name shelf.name.now then shelf.asked else 0 };

    ghost since_fault = { λ shelf. K.since_fault shelf.inner };

    fn read(&mut self, name: &str, at: u64, buf: &mut [u8]) -> Result<usize, Fault> {
        if name == self.name {
            self.asked = self.asked.max(at.saturating_add(buf.len() as u64));
        }
        self.inner.read(name, at, buf)
    }

    fn start(&mut self, name: &str) -> Result<(), Fault> {
        self.inner.start(name)
    }

    fn append(&mut self, name: &str, piece: &[u8]) -> Result<usize, Fault> {
        self.inner.append(name, piece)
    }

    fn distrust(&mut self, name: &str) {
        self.inner.distrust(name);
    }
}

/// Distrusts a file twice: each counts, and that is all.
fn distrust_twice<K: Shelf>(shelf: &mut K, name: &str)
    requires untold { K.files shelf.old ≡ None }
    ensures counted { K.counts shelf.new ≡ with_fault (with_fault (K.counts shelf.old)) }
    ensures files { K.files shelf.new ≡ K.files shelf.old }
    ensures asked { K.asked shelf.new ≡ K.asked shelf.old }
    ensures last { K.since_fault shelf.new ≡ 0 }
{
    shelf.distrust(name);
    shelf.distrust(name);
}

#[test]
fn a_file_is_asked_for_one_byte_past_its_limit_and_no_further(rt: HostRuntime) -> Result<(), Fail> {
    let alloc = rt.alloc();
    let mut inner = CalmShelf::new(alloc);
    inner.put_file("a", b"abcdef")?;
    let mut shelf = WatchedShelf {
        inner,
        name: "a",
        asked: 0,
    };
    let front = reads(alloc, &mut shelf, "a", 3, b"abcd");
    assert_eq!(rt; (front, shelf.asked), (Ok(true), 4));
    Ok(())
}

#[test]
fn a_write_that_fails_leaves_what_was_held_before(rt: HostRuntime) -> Result<(), Fail> {
    let alloc = rt.alloc();
    let mut shelf = MemShelf::new(alloc, vec![in alloc; 1, 3]?);
    shelf.put_file("a", b"old")?;
    let first = write_file(&mut shelf, "a", b"new");
    let unstarted = shelf.file("a") == Some(b"old".as_slice());
    let second = write_file(&mut shelf, "a", b"new");
    let empty = shelf.file("a") == Some(b"".as_slice());
    let third = write_file(&mut shelf, "a", b"new");
    let whole = shelf.file("a") == Some(b"new".as_slice());
    assert_eq!(rt;
        [first, second, third],
        [Err(Fault::Failed), Err(Fault::Failed), Ok(())]
    );
    assert_eq!(rt; [unstarted, empty, whole], [true; 3]);
    Ok(())
}

#[test]
fn a_sink_in_memory_fails_in_its_chosen_calls_alone(rt: HostRuntime) -> Result<(), Fail> {
    let alloc = rt.alloc();
    let mut sink = MemSink::new(alloc, vec![in alloc; 2]?);
    let puts = [
        put_all(&mut sink, b"ab"),
        put_all(&mut sink, b"cd"),
        put_all(&mut sink, b"ef"),
    ];
    let held = sink.bytes() == b"abef".as_slice();
    assert_eq!(rt; (puts, held), ([Ok(()), Err(Fault::Failed), Ok(())], true));
    Ok(())
}

#[test]
fn a_sink_in_memory_holds_what_was_put(rt: HostRuntime) -> Result<(), Fail> {
    let alloc = rt.alloc();
    let mut sink = VecSink::new(alloc);
    let first = put_all(&mut sink, b"ab");
    let first_held = sink.bytes() == b"ab".as_slice();
    sink.clear();
    let second = put_all(&mut sink, b"cd");
    let held = [
        first_held,
        sink.bytes() == b"cd".as_slice(),
        sink.into_bytes().as_slice() == b"cd".as_slice(),
    ];
    assert_eq!(rt; (first, second, held), (Ok(()), Ok(()), [true; 3]));
    Ok(())
}

/// Puts ten bytes in two pieces. What a sink tells is known of each.
fn put_ten<K: Sink>(to: &mut K) -> Result<(), Fault>
    ensures { OnOk result (K.written to.new ≡ with_bytes (with_bytes (K.written to.old) (codes "0123")) (codes "456789")) }
{
    put_all(to, b"0123")?;
    put_all(to, b"456789")
}

#[test]
fn a_sink_that_counts_tells_how_many_bytes_a_writer_puts(rt: HostRuntime) -> Result<(), Fail> {
    let mut sink = CountSink::new();
    put_ten(&mut sink)?;
    assert_eq!(rt; sink.count(), 10);
    Ok(())
}

#[test]
fn a_source_gives_its_bytes_and_ends(rt: HostRuntime) -> Result<(), Fail> {
    let mut source = SliceSource::new(b"abcde");
    let mut buf = [0u8; 3];
    let first = take_full(&mut source, &mut buf);
    let front = buf;
    let rest = [
        take_full(&mut source, &mut buf),
        take_full(&mut source, &mut buf),
    ];
    assert_eq!(rt; (first, front), (Ok(3), *b"abc"));
    assert_eq!(rt; (rest, buf), ([Ok(2), Ok(0)], *b"dec"));
    Ok(())
}

#[test]
fn bytes_in_memory_come_several_at_a_time_while_four_are_left(rt: HostRuntime) -> Result<(), Fail> {
    let mut source = SliceSource::new(&[0xFE, 0x02, 0x03, 0x04, 0x05, 0x06]);
    let numbers = [
        source.take_number(1),
        source.take_number(2),
        source.take_number(2),
    ];
    let byte = source.take_byte();
    assert_eq!(rt;
        (numbers, byte),
        ([Ok(Some(0xFE)), Ok(Some(0x0203)), Ok(None)], Ok(Some(0x04)))
    );
    let mut source = SliceSource::new(&[0xFE, 0x02, 0x03, 0x04]);
    let number = source.take_number(4);
    assert_eq!(rt;
        (number, source.take_byte()),
        (Ok(Some(0xFE02_0304)), Ok(None))
    );
    Ok(())
}

#[test]
fn bytes_of_a_file_come_one_at_a_time(rt: HostRuntime) -> Result<(), Fail> {
    let alloc = rt.alloc();
    let mut shelf = MemShelf::new(alloc, Vec::new(alloc));
    shelf.put_file("a", b"abcde")?;
    let mut reading = Reading::new(&mut shelf, "a");
    let number = reading.take_number(4);
    assert_eq!(rt; (number, reading.take_byte()), (Ok(None), Ok(Some(b'a'))));
    Ok(())
}

#[test]
fn one_file_of_a_shelf_is_a_source_and_a_sink(rt: HostRuntime) -> Result<(), Fail> {
    let alloc = rt.alloc();
    let mut shelf = MemShelf::new(alloc, vec![in alloc; 4]?);
    shelf.put_file("a", b"abc")?;
    let added = put_all(&mut Writing::new(&mut shelf, "a"), b"de");
    let held = shelf.file("a") == Some(b"abcde".as_slice());
    let mut buf = [0u8; 4];
    let mut reading = Reading::new(&mut shelf, "a");
    let first = take_full(&mut reading, &mut buf);
    let front = buf;
    let rest = [
        reading.take(&mut buf),
        reading.take(&mut buf),
        reading.take(&mut buf),
    ];
    assert_eq!(rt;
        (added, held, first, front),
        (Ok(()), true, Ok(4), *b"abcd")
    );
    assert_eq!(rt; rest, [Ok(1), Err(Fault::Failed), Ok(0)]);
    Ok(())
}

#[test]
fn a_real_file_is_written_and_read_back(rt: HostRuntime) -> Result<(), Fail> {
    let alloc = rt.alloc();
    let own = format!(in alloc; "shelf_io_{}", process::id(rt.process()))?;
    let path = env::temp_dir(&rt)?.join(alloc, own.as_str())?;
    let name = path.as_str();
    let mut shelf = FileShelf::new(&rt);
    let started = write_file(&mut shelf, name, b"one two");
    let added = put_all(&mut Writing::new(&mut shelf, name), b" three");
    distrust_twice(&mut shelf, name);
    let held = reads(alloc, &mut shelf, name, 100, b"one two three");
    fs::remove_file(&rt, name)?;
    let removed = reads(alloc, &mut shelf, name, 100, b"");
    let nameless = write_file(&mut shelf, "", b"x");
    assert_eq!(rt;
        [started, added, nameless],
        [Ok(()), Ok(()), Err(Fault::Failed)]
    );
    assert_eq!(rt; [held, removed], [Ok(true), Err(Fault::Missing)]);
    Ok(())
}

/// Takes one byte a call, and none once `room` is used up.
#[derive(Drop)]
struct Short {
    room: std::cell::Cell<usize>,
}

impl Print for Short {
    fn print<D: Display + Drop>(&self, _value: D) -> io::Result<()> {
        Ok(())
    }

    fn println<D: Display + Drop>(&self, _value: D) -> io::Result<()> {
        Ok(())
    }

    fn write_all(&self, _bytes: &[u8]) -> io::Result<()> {
        Ok(())
    }

    fn write_some(&self, bytes: &[u8]) -> io::Result<usize> {
        let room = self.room.get();
        self.room.set(room.saturating_sub(1));
        Ok(room.min(1).min(bytes.len()))
    }
}

#[test]
fn output_that_takes_nothing_is_a_failure(rt: HostRuntime) -> Result<(), Fail> {
    let out = Short {
        room: std::cell::Cell::new(3),
    };
    let mut sink = OutSink::new(&out);
    let whole = put_all(&mut sink, b"abc");
    let empty = sink.put(b"");
    let more = put_all(&mut sink, b"d");
    assert_eq!(rt; (whole, empty, more), (Ok(()), Ok(0), Err(Fault::Failed)));
    Ok(())
}
