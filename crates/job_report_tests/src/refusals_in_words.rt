use job_report::*;
use std::test::Fail;

/// Texts that are no jobs, and the words of their refusals.
const REFUSALS: [(&str, &str); 8] = [
    ("slot", "job: the text is no TOML document"),
    (
        "",
        "job: slot is missing or of another type; allowed: a whole number of ticks from 1016 to 40000, required",
    ),
    (
        "slot = 4000\nstart = -1",
        "job: start is out of range; allowed: a whole number of ticks from 0 to 54000000, by default 13500000",
    ),
    (
        "slot = 4000\nrate = 1\n[[program]]",
        "job: unknown is no field; allowed: slot, start, stream_id, nodes, evaluations and program",
    ),
    (
        "slot = 4000\n[[program]]\nfile = ''",
        "job: program[0].file is out of range; allowed: a text that isn't empty and is no other file of the command, required",
    ),
    (
        "slot = 4000\nprogram = [{file = 'a', program = 1, number = 1, coarser = [24, 24]}]",
        "job: program[0].coarser is out of range; allowed: at most 7 whole numbers from 17 to 1792 that rise, by default [24, 32, 48, 80, 128]",
    ),
    (
        "slot = 4000\nprogram = [{file = 'a', program = 1, number = 1, name = 'film'}]",
        "job: program[0].unknown is no field; allowed: file, program, number, weight, coarser, drift, drop and form",
    ),
    (
        "slot = 4000\nprogram = [{file = 'a', program = 1, number = 1, form = 'mpg'}]",
        "job: program[0].form is out of range; allowed: \"ts\" for a transport stream or \"ps\" for a program stream, by default \"ts\"",
    ),
];

#[test]
fn a_refusal_tells_what_is_allowed(rt: HostRuntime) -> Result<(), Fail> {
    for &(text, want) in &REFUSALS {
        match read_job(rt.alloc(), text.as_bytes()) {
            Ok(_job) => assert_eq!(rt; "a job", want),
            Err(fault) => {
                let words = format!(in rt.alloc(); "{fault}")?;
                assert_eq!(rt; words.as_str(), want);
            }
        }
    }
    Ok(())
}
