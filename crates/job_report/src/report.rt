use crate::limits::NAME_MOST;
use arrayvec::ArrayString;
use list_types::{ListOf, Text};
use version_table::Choice;

/// What a run did with one program.
#[derive(Drop)]
pub struct ProgramReport {
    /// Bytes of PES packets that were carried, for each audio stream in order.
    pub audio_bytes: ListOf<u64>,
    /// The version that was sent of each unit.
    pub choice: Choice,
    /// Descriptors of its program map section that weren't carried.
    pub descriptors_dropped: u32,
    /// PIDs of its program map section that weren't carried, in its order.
    pub not_carried: ListOf<u16>,
    /// Its program_number in the output.
    pub number: u16,
    /// PES packets that were cut at the file's end and dropped.
    pub pes_dropped: u32,
    /// Bytes behind the last whole packet of its file.
    pub rest: u8,
    /// Units that were dropped at the beginning and the end.
    pub units_dropped: u32,
}

/// The first miss of the smallest choice in slots of some length.
#[derive(Clone, Copy, Debug, PartialEq)]
pub struct SlotMiss {
    /// When the packet is due, in ticks.
    pub due: u64,
    /// The packet slot in which the miss is found, from 0.
    pub packet_slot: u32,
    /// The stream, over all programs in order.
    pub stream: u32,
    /// The unit, or the packet of an audio stream.
    pub unit: u32,
}

/// What is said of slots of so many ticks.
#[derive(Clone, Copy, Debug, PartialEq)]
pub struct SlotVerdict {
    /// Ticks of a packet slot.
    pub slot: u32,
    /// A time lies behind the last of such slots that a stream may have; nothing else is said then.
    pub limit: bool,
    /// The first miss; none where the smallest choice is scheduled.
    pub miss: Option<SlotMiss>,
}

/// How a command ended, as it is reported. Places are in bytes, times in ticks of 1/27,000,000 s.
#[derive(Drop)]
pub enum Report {
    /// A plan of a table; `optimal` where no choice that is scheduled has a smaller distortion.
    Plan {
        bound: u64,
        choice: Choice,
        distortion: u64,
        nodes: u32,
        optimal: bool,
    },
    /// A stream was written.
    Run {
        bound: u64,
        distortion: u64,
        nodes: u32,
        programs: ListOf<ProgramReport>,
        optimal: bool,
        slots: u32,
    },
    /// A program's table was written: packets of each audio stream, and units.
    Probe {
        audio_packets: ListOf<u32>,
        units: u32,
    },
    /// A certificate holds, with this bound.
    Check {
        bound: u64,
    },
    /// A program was made.
    Gen {
        bytes: u64,
        pictures: u32,
    },
    /// The smallest choice of a table is scheduled.
    ScheduledVerdict,
    /// No choice of a table is scheduled: in this window of time its units need more packets than there is room for.
    NoRoomVerdict {
        due: u64,
        from: u64,
        needed: u64,
        room: i64,
    },
    /// Neither is shown of a table.
    OpenVerdict,
    /// The audit of a stream finds nothing.
    AuditClean,
    /// The greatest slot in which a job fits, and what is said of each slot that was asked for.
    Fit {
        fit: u32,
        slots: ListOf<SlotVerdict>,
    },
    /// The words are no command.
    Usage,
    /// The first line, from 1, that no table text has there.
    TableSyntax {
        line: u64,
    },
    /// The first limit that a table text breaks.
    TableLimit {
        name: ArrayString<NAME_MOST>,
    },
    /// The job text is no document.
    JobSyntax,
    /// The first field that a job text gets wrong.
    JobField {
        name: ArrayString<NAME_MOST>,
    },
    /// The first limit that a job text breaks.
    JobLimit {
        name: ArrayString<NAME_MOST>,
    },
    /// The first line, from 1, that no list of slots has there; 0 where a list is too long.
    ListSyntax {
        line: u64,
    },
    /// A program is refused: the program in the job from 0, what is wrong, and at which byte.
    Source {
        at: u64,
        kind: ArrayString<NAME_MOST>,
        program: u8,
    },
    /// The smallest choice has this first miss.
    Unschedulable {
        due: u64,
        slot: u32,
        stream: u32,
        unit: u32,
    },
    /// A file could not be read.
    ReadFault {
        name: Text,
    },
    /// A file could not be written.
    WriteFault {
        name: Text,
    },
    /// The first byte that no certificate has there.
    CertSyntax {
        byte: u64,
    },
    /// A certificate is wrong at this node.
    CertFault {
        node: u32,
        why: ArrayString<NAME_MOST>,
    },
    /// A file that the command reads is not there.
    Missing {
        name: Text,
    },
    /// The first finding of the audit of a stream: what it is, on which PID and where.
    AuditFault {
        at: u64,
        fault: ArrayString<NAME_MOST>,
        pid: u16,
    },
    /// A job fits in none of the slots that were asked for.
    NoFit {
        slots: ListOf<SlotVerdict>,
    },
}
