//! Runs over many devices and many flows.

use crate::cases::{CHECK, Case, Run};
use crate::network::{END, FLOWS, KEEP, LOCATIONS, P2};
use rela_top::MET;
use std::alloc::{AllocError, Global};
use std::process::Abort;

/// How many devices there are.
const DEVICES: usize = 5_000;

/// The location file of the devices d0001, d0002 and so on, each with one interface.
fn locations(alloc: Global) -> Result<String, AllocError> {
    let mut text = String::from_str(
        alloc,
        r#"{"version":1,"groups":[{"name":"all-devices","devices":["#,
    )?;
    for number in 1..=DEVICES {
        let comma = if number == 1 { "" } else { "," };
        let device = format!(in alloc;
            "{comma}{{\"name\":\"d{number:04}\",\"interfaces\":[\"d{number:04}:0\"]}}"
        )?;
        text.push_str(device.as_str())?;
    }
    text.push_str("]}]}")?;
    Ok(text)
}

/// A check of the paths of one symbol that are the first so many devices.
fn first_devices(alloc: Global, count: usize) -> Result<String, AllocError> {
    let mut text = String::from_str(alloc, "level device; check c1 : { d0001")?;
    for number in 2..=count {
        let device = format!(in alloc; " | d{number:04}")?;
        text.push_str(device.as_str())?;
    }
    text.push_str(" : preserve };")?;
    Ok(text)
}

/// The flow f1, which is delivered at once.
const AT_ONCE: &str =
    r#"{"version":1,"flows":[{"name":"f1","dst":"10.0.0.0/24","nodes":["d0001:0"],"edges":[],"starts":[0],"delivered":[0]}]}"#;

/// Asserts that f1 is compliant with the check over these locations.
fn is_compliant<'a>(
    rt: &impl Abort,
    alloc: Global,
    locations: &'a [&'a str],
    spec: &'a [&'a str],
    place: usize,
) -> Result<(), AllocError> {
    let run = Run {
        words: CHECK,
        files: &[
            ("before", &[AT_ONCE]),
            ("after", &[AT_ONCE]),
            ("locations", locations),
            ("spec", spec),
        ],
        status: MET,
        text: &[
            "flow f1 check c1 compliant\n",
            "total 1 compliant 1 violated 0 undecided 0 unselected 0\n",
        ],
    };
    run.holds(rt, alloc, place)
}

#[test]
fn decides_checks_of_many_blocks(rt: HostRuntime) -> Result<(), AllocError> {
    let alloc = rt.alloc();
    let locations = locations(alloc)?;
    // A block of each device that is named, one of the others, and one each of drop and loop.
    for count in [10, 100, 500, 2_000, 4_200] {
        let spec = first_devices(alloc, count)?;
        is_compliant(&rt, alloc, &[locations.as_str()], &[spec.as_str()], count)?;
    }
    Ok(())
}

/// How many flows there are.
const FLOW_COUNT: usize = 10_000;

/// A snapshot of the flows f1, f2 and so on over r2.
fn snapshot(alloc: Global) -> Result<String, AllocError> {
    let mut text = String::from_str(alloc, FLOWS)?;
    for number in 1..=FLOW_COUNT {
        let comma = if number == 1 { "" } else { "," };
        let flow = format!(in alloc; "{comma}{{\"name\":\"f{number}\",\"dst\":\"10.0.0.0/24\",")?;
        text.push_str(flow.as_str())?;
        text.push_str(P2)?;
    }
    text.push_str(END)?;
    Ok(text)
}

/// The report that they are all compliant.
fn report(alloc: Global) -> Result<String, AllocError> {
    let mut text = String::new(alloc);
    for number in 1..=FLOW_COUNT {
        let row = format!(in alloc; "flow f{number} check c1 compliant\n")?;
        text.push_str(row.as_str())?;
    }
    text.push_str("total 10000 compliant 10000 violated 0 undecided 0 unselected 0\n")?;
    Ok(text)
}

/// Asserts that this is the report where nothing changes.
fn is_report<'a>(
    rt: &impl Abort,
    alloc: Global,
    snapshot: &'a [&'a str],
    report: &'a [&'a str],
) -> Result<(), AllocError> {
    let run = Run {
        words: CHECK,
        files: &[
            ("before", snapshot),
            ("after", snapshot),
            ("locations", LOCATIONS),
            ("spec", KEEP),
        ],
        status: MET,
        text: report,
    };
    run.holds(rt, alloc, 0)
}

#[test]
fn reports_ten_thousand_flows(rt: HostRuntime) -> Result<(), AllocError> {
    let alloc = rt.alloc();
    let snapshot = snapshot(alloc)?;
    let report = report(alloc)?;
    is_report(&rt, alloc, &[snapshot.as_str()], &[report.as_str()])
}
