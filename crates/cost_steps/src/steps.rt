ghost use Rattle.std.specs.Prelude.{◌≡◌, ℕ, ◌+◌, ◌-◌, ◌*◌, ◌<◌, ◌≤◌, ◌^◌, ◌⊎◌, ◌++◌, List, length, All, OnOk};
ghost use Rattle.version_table.specs.Table.{IsValidVersion};
ghost use Rattle.dual_bounds.specs.declared.constants.TheConstants.{DISTORTION_PARTS};
ghost use Rattle.dual_bounds.specs.Values.{cost, packet_count};
ghost use Rattle.cost_sweep.specs.declared.step.CostStep.{CostStep as Step};
ghost use Rattle.cost_steps.specs.declared.constants.TheConstants.{PRICE_MOST};
ghost use Rattle.cost_steps.specs.Private.Lines.{IsLeastLine, IsLineOf, IsNext, first_step, line_cost, step_between};
ghost use Rattle.cost_steps.specs.Steps.{TellLeast, TellLeastAbove};

use crate::constants::PRICE_MOST;
use cost_sweep::CostStep;
use dual_bounds::constants::DISTORTION_PARTS;
use list_types::OutOfMemory;
use stream_constants::packets::PAYLOAD_BYTES;
use version_table::Version;

/// A version as the line of its cost.
#[derive(Clone, Copy)]
struct Line {
    rise: u64,
    packets: u32,
}

/// Adds the steps of the least cost of a unit that is due at a time and has these versions. Fails only for want of memory.
pub fn add_steps(
    steps: &mut Vec<CostStep>,
    due: u64,
    versions: &[Version],
) -> Result<(), OutOfMemory>
    requires some { 1 ≤ length versions.now }
    requires valid { All IsValidVersion versions.now }
    ensures { OnOk result ((own : List Step) × (steps.new.items ≡ steps.old.items ++ own) × TellLeast due versions.now own) }
{
    add_steps_above(steps, due, 0, versions)
}

/// Adds the steps of the least cost of a unit that is due at a time and has these versions, where each packet costs a base
/// price already. Fails only for want of memory.
pub fn add_steps_above(
    steps: &mut Vec<CostStep>,
    due: u64,
    base: u64,
    versions: &[Version],
) -> Result<(), OutOfMemory>
    requires some { 1 ≤ length versions.now }
    requires valid { All IsValidVersion versions.now }
    requires base { base ≤ PRICE_MOST }
    ensures { OnOk result ((own : List Step) × (steps.new.items ≡ steps.old.items ++ own) × TellLeastAbove base due versions.now own) }
{
    let mut line = least_line(versions, base);
    steps.push(first_step(base, due, line))?;
    let mut price = next_price(versions, line, base);
    while price <= PRICE_MOST {
        let next = least_line(versions, price);
        steps.push(step_between(base, due, price, line, next))?;
        line = next;
        price = next_price(versions, line, price);
    }
    Ok(())
}

/// The first step above a base price: what a line costs.
fn first_step(base: u64, due: u64, line: Line) -> CostStep
    requires base { base ≤ PRICE_MOST }
    requires small { line.rise + line.packets * PRICE_MOST < 2 ^ 63 }
    ensures { result ≡ first_step base due line }
{
    CostStep {
        due,
        from: 0,
        rise: line.rise + u64::from(line.packets) * base,
        packets: line.packets,
        fewer: 0,
    }
}

/// The step above a base price from a line to another one with fewer packets.
fn step_between(base: u64, due: u64, price: u64, line: Line, next: Line) -> CostStep
    requires order { base ≤ price }
    requires fewer { next.packets ≤ line.packets }
    requires rise { line.rise + (line.packets - next.packets) * base ≤ next.rise }
    ensures { result ≡ step_between base due price line next }
{
    let fewer = line.packets - next.packets;
    CostStep {
        due,
        from: price - base,
        rise: next.rise - line.rise - u64::from(fewer) * base,
        packets: 0,
        fewer,
    }
}

/// The price from which on another version costs less than this one, which costs least at the price before.
fn next_price(versions: &[Version], line: Line, before: u64) -> u64
    requires valid { All IsValidVersion versions.now }
    requires least { All (λ version. line_cost line before ≤ cost before version) versions.now }
    ensures { IsNext versions.now line result }
{
    let mut next = PRICE_MOST + 1;
    for version in versions {
        next = next.min(crossing(line, line_of(*version)));
    }
    next
}

/// The price from which on another line is lower.
fn crossing(line: Line, other: Line) -> u64
    requires { other.packets < line.packets → line.rise ≤ other.rise }
    ensures most { result ≤ PRICE_MOST + 1 }
    ensures before { (price : ℕ) → price < result → other.packets < line.packets → line_cost line price ≤ line_cost other price }
    ensures at { result ≤ PRICE_MOST → line_cost other result < line_cost line result }
    ensures fewer { result ≤ PRICE_MOST → other.packets < line.packets }
{
    if line.packets <= other.packets {
        return PRICE_MOST + 1;
    }
    let whole = (other.rise - line.rise) / u64::from(line.packets - other.packets);
    whole.min(PRICE_MOST) + 1
}

/// The line of the version that costs least at a price.
fn least_line(versions: &[Version], price: u64) -> Line
    requires some { 1 ≤ length versions.now }
    requires valid { All IsValidVersion versions.now }
    requires price { price ≤ PRICE_MOST }
    ensures { IsLeastLine versions.now price result }
{
    let mut least = line_of(versions[0]);
    for version in versions {
        least = lower_of(least, line_of(*version), price);
    }
    least
}

/// The line that is lower at a price.
fn lower_of(a: Line, b: Line, price: u64) -> Line
    requires price { price ≤ PRICE_MOST }
    requires first { a.rise + a.packets * PRICE_MOST < 2 ^ 63 }
    requires second { b.rise + b.packets * PRICE_MOST < 2 ^ 63 }
    ensures one { (result ≡ a) ⊎ (result ≡ b) }
    ensures first { line_cost result price ≤ line_cost a price }
    ensures second { line_cost result price ≤ line_cost b price }
{
    let own = a.rise + u64::from(a.packets) * price;
    let other = b.rise + u64::from(b.packets) * price;
    if other < own { b } else { a }
}

/// The line of a version.
fn line_of(version: Version) -> Line
    requires { IsValidVersion version }
    ensures line { IsLineOf version result }
    ensures small { result.rise + result.packets * PRICE_MOST < 2 ^ 63 }
{
    Line {
        rise: DISTORTION_PARTS * version.distortion,
        packets: version.bytes.div_ceil(PAYLOAD_BYTES as u32),
    }
}
