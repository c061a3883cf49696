use job_report::limits::{JOB_TEXT_MOST, PROBE_SLOT};
use job_report::*;
use std::alloc::{AllocError, Global};
use std::test::Fail;

/// A job with what must be there.
const LEAST: &str = "slot = 4000\n[[program]]\nfile = \"a.ts\"\nprogram = 1\nnumber = 1\n";

/// What reading a text answers, in words.
fn answer_of(alloc: Global, text: &[u8]) -> Result<String, AllocError> {
    match read_job(alloc, text) {
        Ok(_job) => String::from_str(alloc, "job"),
        Err(fault) => match fault {
            JobFault::JobSyntax => String::from_str(alloc, "syntax"),
            JobFault::JobField(name) => format!(in alloc; "field {name}"),
            JobFault::JobLimit(name) => format!(in alloc; "limit {name}"),
            JobFault::OutOfMemory => String::from_str(alloc, "memory"),
        },
    }
}

/// What reading a text answers that goes on behind a job with what must be there.
fn answer_behind(alloc: Global, rest: &str) -> Result<String, AllocError> {
    let mut text = String::from_str(alloc, LEAST)?;
    text.push_str(rest)?;
    answer_of(alloc, text.as_bytes())
}

/// Texts of jobs without programs, and what reading them answers.
const FIELDS: [(&str, &str); 31] = [
    ("", "field slot"),
    ("# a remark alone\n", "field slot"),
    ("start = -1\n", "field slot"),
    ("slot = \"4000\"\n", "field slot"),
    ("slot = 4000.0\n", "field slot"),
    ("slot = 2026-11-27\n", "field slot"),
    ("slot = [4000]\n", "field slot"),
    ("slot = -4000\n", "limit slot"),
    ("slot = 1015\n", "limit slot"),
    ("slot = 1016\n", "field program"),
    ("slot = 40_000\n", "field program"),
    ("slot = 40001\n", "limit slot"),
    ("slot = 4000\n", "field program"),
    ("slot = 4000\nstart = 0\n", "field program"),
    ("slot = 4000\nstart = 54000000\n", "field program"),
    ("slot = 4000\nstart = 54000001\n", "limit start"),
    ("slot = 4000\nstart = true\n", "field start"),
    ("slot = 4000\nstream_id = 65535\n", "field program"),
    ("slot = 4000\nstream_id = 65536\n", "limit stream_id"),
    ("slot = 4000\nnodes = 0\n", "limit nodes"),
    ("slot = 4000\nnodes = 1048576\n", "field program"),
    ("slot = 4000\nnodes = 1048577\n", "limit nodes"),
    ("evaluations = 1.5\nnodes = 0\nslot = 4000\n", "limit nodes"),
    ("slot = 4000\nevaluations = 0\n", "field program"),
    ("slot = 4000\nevaluations = 1048577\n", "limit evaluations"),
    ("slot = 4000\nprogram = 1\n", "field program"),
    ("slot = 4000\n[program]\nfile = \"a.ts\"\n", "field program"),
    ("slot = 4000\nprogram = []\n", "limit program"),
    ("slot = 4000\nprogram = [{}, 1]\n", "field program"),
    (
        "slot = 4000\nprogram = [{},{},{},{},{},{},{},{},{}]\nx = 1\n",
        "limit program",
    ),
    ("slot = 4000\nslots = 1\n[[program]]\n", "field unknown"),
];

#[test]
fn fields_of_a_job_are_tested_in_order(rt: HostRuntime) -> Result<(), Fail> {
    for &(text, want) in &FIELDS {
        assert_eq!(rt;
            answer_of(rt.alloc(), text.as_bytes())?.as_str(),
            want,
            "at {text}"
        );
    }
    Ok(())
}

/// What goes on behind a job with what must be there, and what reading both answers.
const PROGRAM_FIELDS: [(&str, &str); 41] = [
    ("", "job"),
    ("weight = 1\n", "job"),
    ("weight = 0\n", "limit program[0].weight"),
    ("weight = 100\n", "job"),
    ("weight = 101\n", "limit program[0].weight"),
    ("weight = \"1\"\nweigth = 2\n", "field program[0].weight"),
    ("weigth = 2\n", "field program[0].unknown"),
    ("coarser = []\n", "job"),
    ("coarser = [17, 1792]\n", "job"),
    ("coarser = [16, 17]\n", "limit program[0].coarser"),
    ("coarser = [1793]\n", "limit program[0].coarser"),
    ("coarser = [32, 24]\n", "limit program[0].coarser"),
    ("coarser = [24, 24]\n", "limit program[0].coarser"),
    ("coarser = [17, 18, 19, 20, 21, 22, 23]\n", "job"),
    (
        "coarser = [17, 18, 19, 20, 21, 22, 23, 24]\n",
        "limit program[0].coarser",
    ),
    ("coarser = [1, \"32\"]\n", "field program[0].coarser"),
    ("coarser = 24\n", "field program[0].coarser"),
    ("drift = 0\n", "job"),
    ("drift = 16\n", "job"),
    ("drift = 17\n", "limit program[0].drift"),
    ("drift = -1\n", "limit program[0].drift"),
    ("drop = 33\ndrift = 6.0\n", "field program[0].drift"),
    ("drift = 17\ncoarser = 24\n", "field program[0].coarser"),
    ("drop = [8191, 0, 0]\n", "job"),
    ("drop = [8192]\n", "limit program[0].drop"),
    ("drop = [-1]\n", "limit program[0].drop"),
    ("drop = [33, 34.0]\n", "field program[0].drop"),
    ("form = \"ts\"\n", "job"),
    ("form = \"ps\"\n", "job"),
    ("form = \"PS\"\n", "limit program[0].form"),
    ("form = 1\n", "field program[0].form"),
    ("form = \"\"\ndrop = 33\n", "field program[0].drop"),
    ("[[program]]\n", "field program[1].file"),
    ("[[program]]\nfile = \"\"\n", "limit program[1].file"),
    ("[[program]]\nfile = \"b\"\n", "field program[1].program"),
    (
        "[[program]]\nfile = \"b\"\nprogram = 0\n",
        "limit program[1].program",
    ),
    (
        "[[program]]\nfile = \"b\"\nprogram = 1\n",
        "field program[1].number",
    ),
    (
        "[[program]]\nfile = \"b\"\nprogram = 65535\nnumber = 65535\n",
        "job",
    ),
    (
        "[[program]]\nfile = \"b\"\nprogram = 65536\n",
        "limit program[1].program",
    ),
    (
        "[[program]]\nfile = \"b\"\nprogram = 1\nnumber = 1\n",
        "limit program[1].number",
    ),
    (
        "[[program]]\nfile = \"a.ts\"\nprogram = 1\nnumber = 2\n",
        "job",
    ),
];

#[test]
fn fields_of_programs_are_tested_in_order(rt: HostRuntime) -> Result<(), Fail> {
    for &(text, want) in &PROGRAM_FIELDS {
        assert_eq!(rt;
            answer_behind(rt.alloc(), text)?.as_str(),
            want,
            "at {text}"
        );
    }
    Ok(())
}

/// Texts that are documents or none, and what reading them answers.
const DOCUMENTS: [(&str, &str); 9] = [
    ("slot =\n", "syntax"),
    ("slot = 4000\nslot = 4000\n", "syntax"),
    ("slot = 04000\n", "syntax"),
    ("slot = 4000\r\n", "field program"),
    ("slot = 4000\r", "syntax"),
    ("\u{feff}slot = 4000\n", "field program"),
    ("slot = 4000", "field program"),
    ("slot = 9223372036854775808\n", "syntax"),
    ("\"slot\" = 4000\n", "field program"),
];

#[test]
fn texts_are_documents_or_refused(rt: HostRuntime) -> Result<(), Fail> {
    for &(text, want) in &DOCUMENTS {
        assert_eq!(rt;
            answer_of(rt.alloc(), text.as_bytes())?.as_str(),
            want,
            "at {text}"
        );
    }
    assert_eq!(rt; answer_of(rt.alloc(), b"# \xff\n")?.as_str(), "syntax");
    Ok(())
}

#[test]
fn the_bytes_of_a_text_are_counted_first(rt: HostRuntime) -> Result<(), Fail> {
    let mut text = vec![in rt.alloc(); b'\n'; JOB_TEXT_MOST]?;
    assert_eq!(rt; text.len(), 1_048_576);
    assert_eq!(rt;
        answer_of(rt.alloc(), text.as_slice())?.as_str(),
        "field slot"
    );
    text.push(b'=')?;
    assert_eq!(rt;
        answer_of(rt.alloc(), text.as_slice())?.as_str(),
        "limit bytes"
    );
    Ok(())
}

/// The slot, start, stream_id, nodes and evaluations of a job.
fn numbers_of(job: &Job) -> [u64; 5] {
    [
        u64::from(job.slot),
        job.start,
        u64::from(job.stream_id),
        u64::from(job.nodes),
        u64::from(job.evaluations),
    ]
}

/// What a program states: its file, its numbers with its weight and its drift, its lists, and its form.
#[derive(Clone, Copy)]
struct Stated<'a> {
    file: &'a str,
    numbers: [u16; 4],
    coarser: &'a [u16],
    drop: &'a [u16],
    form: Form,
}

/// Whether these are the one program that is stated.
fn are_one(programs: &[ProgramJob], stated: &Stated<'_>) -> bool {
    match programs {
        [program] => {
            program.file.as_str() == stated.file
                && [
                    program.program,
                    program.number,
                    u16::from(program.weight),
                    u16::from(program.drift),
                ] == stated.numbers
                && program.coarser.as_slice() == stated.coarser
                && program.drop.as_slice() == stated.drop
                && program.form == stated.form
        }
        _ => false,
    }
}

#[test]
fn what_is_not_stated_has_its_default(rt: HostRuntime) -> Result<(), Fail> {
    let job = read_job(rt.alloc(), LEAST.as_bytes())?;
    let stated = Stated {
        file: "a.ts",
        numbers: [1, 1, 1, 0],
        coarser: &[24, 32, 48, 80, 128],
        drop: &[],
        form: Form::Ts,
    };
    assert_eq!(rt; numbers_of(&job), [4_000, 13_500_000, 1, 1_000, 1_000]);
    assert!(rt; are_one(job.programs.as_slice(), &stated));
    Ok(())
}

#[test]
fn what_is_stated_is_read(rt: HostRuntime) -> Result<(), Fail> {
    let text = "evaluations = 0\nnodes = 7\nslot = 1016\nstart = 27_000_000\nstream_id = 0x1F\n\
        program = [{file = 'b c', program = 2, number = 3, weight = 100, coarser = [17], drift = 6, drop = [33, 34], form = 'ps'}]\n";
    let job = read_job(rt.alloc(), text.as_bytes())?;
    let stated = Stated {
        file: "b c",
        numbers: [2, 3, 100, 6],
        coarser: &[17],
        drop: &[33, 34],
        form: Form::Ps,
    };
    assert_eq!(rt; numbers_of(&job), [1_016, 27_000_000, 31, 7, 0]);
    assert!(rt; are_one(job.programs.as_slice(), &stated));
    Ok(())
}

/// Whether the name of the first program whose file is one of these names is this one; none where it is empty.
fn is_shared_so(alloc: Global, names: [&str; 3], want: &str) -> Result<bool, Fail> {
    let mut text = String::from_str(alloc, LEAST)?;
    text.push_str("[[program]]\nfile = \"out.ts\"\nprogram = 1\nnumber = 2\n")?;
    text.push_str("[[program]]\nfile = \"job\"\nprogram = 1\nnumber = 3\n")?;
    let job = read_job(alloc, text.as_bytes())?;
    Ok(match shared_file(&job, names.as_slice()) {
        Some(name) => name.as_str() == want,
        None => want.is_empty(),
    })
}

#[test]
fn the_first_program_of_a_named_file_is_told(rt: HostRuntime) -> Result<(), Fail> {
    for (names, want) in [
        (["job", "out.ts", "cert"], "program[1].file"),
        (["job", "out", "cert"], "program[2].file"),
        (["a.ts", "job", "out.ts"], "program[0].file"),
        (["a", "A.ts", "out.ts2"], ""),
    ] {
        assert!(rt; is_shared_so(rt.alloc(), names, want)?, "{want}");
    }
    Ok(())
}

/// The job of program 7 of a file, which is sent as 9.
fn probed_job(alloc: Global) -> Result<Job, OutOfMemory> {
    let mut file = Text::new(alloc);
    file.push_str("a.ts")?;
    let mut programs = ListOf::new(alloc);
    programs.push(ProgramJob::new(file, 7, 9))?;
    Ok(Job::new(PROBE_SLOT, programs))
}

#[test]
fn a_probed_program_has_the_defaults(rt: HostRuntime) -> Result<(), Fail> {
    let job = probed_job(rt.alloc())?;
    let stated = Stated {
        file: "a.ts",
        numbers: [7, 9, 1, 0],
        coarser: &[24, 32, 48, 80, 128],
        drop: &[],
        form: Form::Ts,
    };
    assert_eq!(rt; numbers_of(&job), [4_000, 13_500_000, 1, 1_000, 1_000]);
    assert!(rt; are_one(job.programs.as_slice(), &stated));
    Ok(())
}
