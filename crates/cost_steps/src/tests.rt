use crate::{add_steps, add_steps_above};
use cost_sweep::CostStep;
use std::test::Fail;
use version_table::Version;

/// Of three versions the one in the middle never costs least: a packet less for 6 pays from 1,536 a packet on, two for 10 from 1,280.
#[test]
fn steps_follow_the_lower_hull(rt: HostRuntime) -> Result<(), Fail> {
    let versions = [
        Version {
            bytes: 552,
            distortion: 0,
        },
        Version {
            bytes: 368,
            distortion: 6,
        },
        Version {
            bytes: 184,
            distortion: 10,
        },
    ];
    let mut steps = Vec::new(rt.alloc());
    add_steps(&mut steps, 7, &versions)?;
    let first = CostStep {
        due: 7,
        from: 0,
        rise: 0,
        packets: 3,
        fewer: 0,
    };
    let second = CostStep {
        due: 7,
        from: 1_281,
        rise: 2_560,
        packets: 0,
        fewer: 2,
    };
    assert_eq!(rt; steps.as_slice(), [first, second].as_slice());
    Ok(())
}

/// The same versions where each packet costs 1,000 already: the third is least from 281 more on. Where it costs 1,500 it is at once.
#[test]
fn steps_above_a_base_price_begin_there(rt: HostRuntime) -> Result<(), Fail> {
    let versions = [
        Version {
            bytes: 552,
            distortion: 0,
        },
        Version {
            bytes: 368,
            distortion: 6,
        },
        Version {
            bytes: 184,
            distortion: 10,
        },
    ];
    let mut steps = Vec::new(rt.alloc());
    add_steps_above(&mut steps, 7, 1_000, &versions)?;
    add_steps_above(&mut steps, 7, 1_500, &versions)?;
    let first = CostStep {
        due: 7,
        from: 0,
        rise: 3_000,
        packets: 3,
        fewer: 0,
    };
    let second = CostStep {
        due: 7,
        from: 281,
        rise: 560,
        packets: 0,
        fewer: 2,
    };
    let at_once = CostStep {
        due: 7,
        from: 0,
        rise: 4_060,
        packets: 1,
        fewer: 0,
    };
    assert_eq!(rt; steps.as_slice(), [first, second, at_once].as_slice());
    Ok(())
}
