//! Verdicts on tables. Slots last 4,000 ticks; the first three, with two programs the first five, are taken by tables and clocks.
use crate::calls::ends_so;
use shelf_kinds::CalmShelf;
use std::alloc::Global;
use std::test::Fail;

/// Whether the verdict on a table is reported so, and the table stays as it is.
fn is_judged_so(alloc: Global, text: &str, line: &str) -> Result<bool, Fail> {
    let mut shelf = CalmShelf::new(alloc);
    shelf.put_file("t", text.as_bytes())?;
    let so = ends_so(alloc, &["impossible", "t"], &mut shelf, 0, line)?;
    Ok(so && shelf.file("t") == Some(text.as_bytes()))
}

#[test]
fn tables_that_are_scheduled(rt: HostRuntime) -> Result<(), Fail> {
    for text in [
        // no packet
        "remux table 1\nslot 4000\nnodes 1\nevaluations 0\nprogram 112\n",
        // the worked example of ten packets
        "remux table 1\nslot 1080\nnodes 4\nevaluations 0\nprogram 112\nunit 36936 1840:0\n",
    ] {
        assert!(rt;
            is_judged_so(rt.alloc(), text, "{\"verdict\":\"scheduled\"}\n")?,
            "{text}"
        );
    }
    Ok(())
}

/// One tick too early: of the slots from 3 to 26, which end in time, ten would do, but the transport buffer takes one in two.
#[test]
fn a_table_that_is_open(rt: HostRuntime) -> Result<(), Fail> {
    let text = "remux table 1\nslot 1080\nnodes 4\nevaluations 0\nprogram 112\nunit 36935 1840:0\n";
    assert!(rt; is_judged_so(rt.alloc(), text, "{\"verdict\":\"open\"}\n")?);
    Ok(())
}

#[test]
fn tables_that_nothing_fits(rt: HostRuntime) -> Result<(), Fail> {
    for (text, line) in [
        // three packets, and slots 3 and 4 end in time
        (
            "remux table 1\nslot 4000\nnodes 1\nevaluations 0\nprogram 112\nunit 27200 552:0\n",
            "{\"due\":27200,\"from\":27200,\"needed\":3,\"room\":2,\"verdict\":\"none\"}\n",
        ),
        // the same where the version of fewest packets stands last
        (
            "remux table 1\nslot 4000\nnodes 1\nevaluations 0\nprogram 112\nunit 27200 736:0 552:9\n",
            "{\"due\":27200,\"from\":27200,\"needed\":3,\"room\":2,\"verdict\":\"none\"}\n",
        ),
        // two packets of two programs, and slot 5 alone ends in time
        (
            "remux table 1\nslot 4000\nnodes 1\nevaluations 0\nprogram 112\nunit 31200 184:0\nprogram 112\nunit 31200 184:0\n",
            "{\"due\":31200,\"from\":31200,\"needed\":2,\"room\":1,\"verdict\":\"none\"}\n",
        ),
        // two packets in slots 3 and 4, of which an audio packet takes one
        (
            "remux table 1\nslot 4000\nnodes 1\nevaluations 0\nprogram 112\nunit 27200 368:0\naudio\npacket 27200 27200 184\n",
            "{\"due\":27200,\"from\":27200,\"needed\":2,\"room\":1,\"verdict\":\"none\"}\n",
        ),
        // audio alone has one packet more than fits
        (
            "remux table 1\nslot 4000\nnodes 1\nevaluations 0\nprogram 112\nunit 20000 184:0\naudio\npacket 20000 20000 184\n",
            "{\"due\":20000,\"from\":20000,\"needed\":1,\"room\":-1,\"verdict\":\"none\"}\n",
        ),
        // each picture has room for itself, and not both together
        (
            "remux table 1\nslot 4000\nnodes 1\nevaluations 0\nprogram 112\nunit 27200 368:0\nunit 27300 184:0\n",
            "{\"due\":27300,\"from\":27200,\"needed\":3,\"room\":2,\"verdict\":\"none\"}\n",
        ),
        // of two windows without room the one that ends first
        (
            "remux table 1\nslot 4000\nnodes 1\nevaluations 0\nprogram 112\nunit 27200 552:0\nunit 31200 920:0\n",
            "{\"due\":27200,\"from\":27200,\"needed\":3,\"room\":2,\"verdict\":\"none\"}\n",
        ),
        // of two that end together the one that begins first
        (
            "remux table 1\nslot 4000\nnodes 1\nevaluations 0\nprogram 112\nunit 27200 368:0\nunit 27300 552:0\n",
            "{\"due\":27300,\"from\":27200,\"needed\":5,\"room\":2,\"verdict\":\"none\"}\n",
        ),
    ] {
        assert!(rt; is_judged_so(rt.alloc(), text, line)?, "{text}");
    }
    Ok(())
}

#[test]
fn a_refused_table_and_a_missing_one(rt: HostRuntime) -> Result<(), Fail> {
    let mut shelf = CalmShelf::new(rt.alloc());
    let words = ["impossible", "t"];
    let line = "{\"name\":\"t\",\"reason\":\"missing\",\"status\":9}\n";
    assert!(rt; ends_so(rt.alloc(), &words, &mut shelf, 9, line)?);
    shelf.put_file("t", b"remux table 1\nslot 04000\nnodes 1\nevaluations 0\n")?;
    let line = "{\"line\":2,\"reason\":\"table syntax\",\"status\":3}\n";
    assert!(rt; ends_so(rt.alloc(), &words, &mut shelf, 3, line)?);
    Ok(())
}
