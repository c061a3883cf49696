use arrayvec::ArrayString;
use job_report::*;
use std::alloc::Global;
use std::test::Fail;

/// Whether the line of a report is this text.
fn is_line(alloc: Global, report: Report, want: &str) -> Result<bool, OutOfMemory> {
    let line = report_text(alloc, &report)?;
    Ok(line.as_slice() == want.as_bytes())
}

/// A name in a report.
fn name_of(text: &str) -> ArrayString<32> {
    let mut name = ArrayString::new();
    let _full = name.try_push_str(text);
    name
}

/// A list of these numbers.
fn list_of<T: Copy + Drop>(alloc: Global, items: &[T]) -> Result<ListOf<T>, OutOfMemory> {
    let mut list = ListOf::new(alloc);
    for item in items {
        list.push(*item)?;
    }
    Ok(list)
}

fn is_line_of_plan(alloc: Global) -> Result<bool, OutOfMemory> {
    let plan = Report::Plan {
        bound: 9,
        choice: list_of(alloc, &[1])?,
        distortion: 9,
        nodes: 4,
        optimal: true,
    };
    is_line(
        alloc,
        plan,
        "{\"bound\":9,\"choice\":[1],\"distortion\":9,\"nodes\":4,\"search\":\"optimal\"}\n",
    )
}

fn is_line_of_probe(alloc: Global) -> Result<bool, OutOfMemory> {
    let probe = Report::Probe {
        audio_packets: list_of(alloc, &[80])?,
        units: 12,
    };
    is_line(alloc, probe, "{\"audio_packets\":[80],\"units\":12}\n")
}

fn is_line_of_check(alloc: Global) -> Result<bool, OutOfMemory> {
    let check = Report::Check { bound: 10 };
    is_line(alloc, check, "{\"bound\":10,\"verdict\":\"yes\"}\n")
}

fn is_line_of_gen(alloc: Global) -> Result<bool, OutOfMemory> {
    let made = Report::Gen {
        bytes: 188,
        pictures: 1,
    };
    is_line(alloc, made, "{\"bytes\":188,\"pictures\":1}\n")
}

#[test]
fn verdicts_are_reported(rt: HostRuntime) -> Result<(), Fail> {
    for (report, want) in [
        (Report::ScheduledVerdict, "{\"verdict\":\"scheduled\"}\n"),
        (
            Report::NoRoomVerdict {
                due: 27_200,
                from: 0,
                needed: 3,
                room: -2,
            },
            "{\"due\":27200,\"from\":0,\"needed\":3,\"room\":-2,\"verdict\":\"none\"}\n",
        ),
        (Report::OpenVerdict, "{\"verdict\":\"open\"}\n"),
    ] {
        assert!(rt; is_line(rt.alloc(), report, want)?, "{want}");
    }
    Ok(())
}

#[test]
fn work_that_was_done_is_reported(rt: HostRuntime) -> Result<(), Fail> {
    let alloc = rt.alloc();
    let are_lines = [
        is_line_of_plan(alloc)?,
        is_line_of_probe(alloc)?,
        is_line_of_check(alloc)?,
        is_line_of_gen(alloc)?,
    ];
    assert_eq!(rt; are_lines, [true; 4]);
    Ok(())
}

/// What is reported of a program that lost a descriptor and more.
fn program_of(alloc: Global) -> Result<ProgramReport, OutOfMemory> {
    Ok(ProgramReport {
        audio_bytes: list_of(alloc, &[11_800, 0])?,
        choice: list_of(alloc, &[0, 2])?,
        descriptors_dropped: 3,
        not_carried: list_of(alloc, &[259, 8191])?,
        number: 7,
        pes_dropped: 1,
        rest: 187,
        units_dropped: 2,
    })
}

#[test]
fn a_stream_is_reported_program_by_program(rt: HostRuntime) -> Result<(), Fail> {
    let mut programs = ListOf::new(rt.alloc());
    programs.push(program_of(rt.alloc())?)?;
    let run = Report::Run {
        bound: 0,
        distortion: 18_446_744_073_709_551_615,
        nodes: 1,
        programs,
        optimal: false,
        slots: 1_270,
    };
    let so = is_line(
        rt.alloc(),
        run,
        "{\"bound\":0,\"distortion\":18446744073709551615,\"nodes\":1,\"programs\":[{\"audio_bytes\":[11800,0],\"choice\":[0,2],\"descriptors_dropped\":3,\"not_carried\":[259,8191],\"number\":7,\"pes_dropped\":1,\"rest\":187,\"units_dropped\":2}],\"search\":\"budget\",\"slots\":1270}\n",
    )?;
    assert!(rt; so);
    Ok(())
}

#[test]
fn refusals_are_reported_with_their_status(rt: HostRuntime) -> Result<(), Fail> {
    let alloc = rt.alloc();
    for (report, want) in [
        (Report::Usage, "{\"reason\":\"usage\",\"status\":2}\n"),
        (
            Report::TableSyntax { line: 2 },
            "{\"line\":2,\"reason\":\"table syntax\",\"status\":3}\n",
        ),
        (
            Report::TableLimit {
                name: name_of("slot"),
            },
            "{\"name\":\"slot\",\"reason\":\"table limit\",\"status\":3}\n",
        ),
        (
            Report::JobSyntax,
            "{\"reason\":\"job syntax\",\"status\":3}\n",
        ),
        (
            Report::JobField {
                name: name_of("program"),
            },
            "{\"name\":\"program\",\"reason\":\"job field\",\"status\":3}\n",
        ),
        (
            Report::JobLimit {
                name: name_of("program[7].coarser"),
            },
            "{\"name\":\"program[7].coarser\",\"reason\":\"job limit\",\"status\":3}\n",
        ),
        (
            Report::Source {
                at: 0,
                kind: name_of("BadCrc"),
                program: 0,
            },
            "{\"at\":0,\"kind\":\"BadCrc\",\"program\":0,\"reason\":\"source\",\"status\":4}\n",
        ),
        (
            Report::Unschedulable {
                due: 36_935,
                slot: 22,
                stream: 0,
                unit: 0,
            },
            "{\"due\":36935,\"reason\":\"unschedulable\",\"slot\":22,\"status\":5,\"stream\":0,\"unit\":0}\n",
        ),
        (
            Report::CertSyntax { byte: 5 },
            "{\"byte\":5,\"reason\":\"certificate\",\"status\":8}\n",
        ),
        (
            Report::CertFault {
                node: 1,
                why: name_of("DueOrder"),
            },
            "{\"node\":1,\"reason\":\"certificate\",\"status\":8,\"why\":\"DueOrder\"}\n",
        ),
    ] {
        assert!(rt; is_line(alloc, report, want)?, "{want}");
    }
    Ok(())
}

fn is_line_of_missing(alloc: Global, name: &str, want: &str) -> Result<bool, OutOfMemory> {
    let name = Text::of(alloc, name)?;
    is_line(alloc, Report::Missing { name }, want)
}

fn is_line_of_unread(alloc: Global, name: &str, want: &str) -> Result<bool, OutOfMemory> {
    let name = Text::of(alloc, name)?;
    is_line(alloc, Report::ReadFault { name }, want)
}

fn is_line_of_unwritten(alloc: Global, name: &str, want: &str) -> Result<bool, OutOfMemory> {
    let name = Text::of(alloc, name)?;
    is_line(alloc, Report::WriteFault { name }, want)
}

#[test]
fn names_of_files_are_quoted(rt: HostRuntime) -> Result<(), Fail> {
    let missing = is_line_of_missing(
        rt.alloc(),
        "b.ts",
        "{\"name\":\"b.ts\",\"reason\":\"missing\",\"status\":9}\n",
    )?;
    let unread = is_line_of_unread(
        rt.alloc(),
        "a \"b\"\\\n.ts",
        "{\"name\":\"a \\\"b\\\"\\\\\\n.ts\",\"reason\":\"read\",\"status\":6}\n",
    )?;
    let unwritten = is_line_of_unwritten(
        rt.alloc(),
        "ö.ts",
        "{\"name\":\"ö.ts\",\"reason\":\"write\",\"status\":7}\n",
    )?;
    assert_eq!(rt; [missing, unread, unwritten], [true; 3]);
    Ok(())
}

#[test]
fn audits_are_reported(rt: HostRuntime) -> Result<(), Fail> {
    for (report, want) in [
        (Report::AuditClean, "{\"audit\":\"clean\"}\n"),
        (
            Report::AuditFault {
                at: 51_136,
                fault: name_of("pcr"),
                pid: 257,
            },
            "{\"at\":51136,\"fault\":\"pcr\",\"pid\":257,\"reason\":\"audit\",\"status\":11}\n",
        ),
    ] {
        assert!(rt; is_line(rt.alloc(), report, want)?, "{want}");
    }
    Ok(())
}

fn is_line_of_fit(alloc: Global, slots: &[SlotVerdict], want: &str) -> Result<bool, OutOfMemory> {
    let slots = list_of(alloc, slots)?;
    is_line(alloc, Report::Fit { fit: 4_000, slots }, want)
}

fn is_line_of_no_fit(
    alloc: Global,
    slots: &[SlotVerdict],
    want: &str,
) -> Result<bool, OutOfMemory> {
    let slots = list_of(alloc, slots)?;
    is_line(alloc, Report::NoFit { slots }, want)
}

#[test]
fn slots_are_reported(rt: HostRuntime) -> Result<(), Fail> {
    let alloc = rt.alloc();
    let miss = SlotMiss {
        due: 36_936,
        packet_slot: 7,
        stream: 0,
        unit: 0,
    };
    let limit = SlotVerdict {
        slot: 1_016,
        limit: true,
        miss: None,
    };
    let scheduled = SlotVerdict {
        slot: 4_000,
        limit: false,
        miss: None,
    };
    let missed = SlotVerdict {
        slot: 4_001,
        limit: false,
        miss: Some(miss),
    };
    let fit = is_line_of_fit(
        alloc,
        &[scheduled],
        "{\"fit\":4000,\"slots\":[{\"slot\":4000,\"verdict\":\"scheduled\"}]}\n",
    )?;
    let none = is_line_of_no_fit(
        alloc,
        &[limit, missed],
        "{\"reason\":\"no fit\",\"slots\":[{\"slot\":1016,\"verdict\":\"limit\"},{\"due\":36936,\"packet_slot\":7,\"slot\":4001,\"stream\":0,\"unit\":0,\"verdict\":\"missed\"}],\"status\":12}\n",
    )?;
    let list = is_line(
        alloc,
        Report::ListSyntax { line: 2 },
        "{\"line\":2,\"reason\":\"list\",\"status\":3}\n",
    )?;
    assert_eq!(rt; [fit, none, list], [true; 3]);
    Ok(())
}
