use crate::calls::ends_so;
use shelf_kinds::CalmShelf;
use std::test::Fail;

/// Words that are no command.
const NO_COMMANDS: [&[&str]; 54] = [
    &[],
    &["plan", "t"],
    &["plan", "t", "t"],
    &["plan", "", "c"],
    &["Plan", "t", "c"],
    &["plan", "t", "c", "d"],
    &["gen", "01", "12", "a"],
    &["gen", "+1", "12", "a"],
    &["gen", "", "12", "a"],
    &["gen", "1", "0", "a"],
    &["gen", "1", "4097", "a"],
    &["gen", "1", "12", ""],
    &["gen", "18446744073709551616", "1", "a"],
    &["run", "j", "o"],
    &["run", "j", "j", "c"],
    &["run", "j", "o", "j"],
    &["run", "j", "o", "o"],
    &["run", "", "o", "c"],
    &["run", "j", "", "c"],
    &["run", "j", "o", ""],
    &["check", "j"],
    &["check", "j", "j"],
    &["check", "", "c"],
    &["check", "j", ""],
    &["check", "j", "o", "c"],
    &["check-plan", "t"],
    &["check-plan", "t", "t"],
    &["check-plan", "", "c"],
    &["check-plan", "t", ""],
    &["impossible"],
    &["impossible", ""],
    &["impossible", "t", "c"],
    &["fit", "j"],
    &["fit", "j", "j"],
    &["fit", "", "l"],
    &["fit", "j", ""],
    &["probe", "a", "1"],
    &["probe", "a", "0", "t"],
    &["probe", "a", "01", "t"],
    &["probe", "a", "+1", "t"],
    &["probe", "a", "65536", "t"],
    &["probe", "a", "", "t"],
    &["probe", "a", "1", "a"],
    &["probe", "", "1", "t"],
    &["probe", "a", "1", ""],
    &["probe", "a", "1", "t", "c"],
    &["audit", "a", "1"],
    &["audit", "", "1", "4000"],
    &["audit", "a", "0", "4000"],
    &["audit", "a", "65536", "4000"],
    &["audit", "a", "1", "1015"],
    &["audit", "a", "1", "40001"],
    &["audit", "a", "1", "04000"],
    &["audit", "a", "1", "4000", "c"],
];

#[test]
fn other_words_are_usage(rt: HostRuntime) -> Result<(), Fail> {
    let mut shelf = CalmShelf::new(rt.alloc());
    for (place, &words) in NO_COMMANDS.iter().enumerate() {
        let so = ends_so(
            rt.alloc(),
            words,
            &mut shelf,
            2,
            "{\"reason\":\"usage\",\"status\":2}\n",
        )?;
        assert!(rt; so, "{place}");
    }
    Ok(())
}
