//! An instrument cluster: 24 units publish, gauges are told of what they show, loggers read all.

use crate::chance::Chance;
use crate::fault::Fault;
use crate::requests::{MAKES, Opened, READS, Requests};
use crate::text::Text;
use std::alloc::Global;

const DIRECTORIES: [&[u8]; 3] = [b"/vehicle/engine", b"/vehicle/body", b"/vehicle/road"];

const UNITS_EACH: u32 = 8;

const ATTRIBUTES: [&[u8]; 8] = [
    b"value",
    b"state",
    b"quality",
    b"minimum",
    b"maximum",
    b"source",
    b"stamp",
    b"warnings",
];

/// What gauges ask for behind the path.
const GAUGES: [&[u8]; 4] = [
    b"?delta",
    b"?delta,wait",
    b"?delta,f=value>500+state",
    b"?delta,f=quality+stamp",
];

/// How many bytes a reader takes.
const SIZE: u32 = 65_536;

#[derive(Drop)]
struct Unit {
    publisher: Opened,
    gauges: Vec<Opened>,
    view: Opened,
}

// A unit's object, its publisher, four gauges and a view that reads the whole object.
fn new_unit(
    alloc: Global,
    requests: &mut Requests,
    path: &[u8],
    place: u16,
) -> Result<Unit, Fault> {
    let publisher = requests.open(1 + place % 4, MAKES, path)?;
    let mut text = Text::new(alloc);
    for name in ATTRIBUTES {
        text.set(name, u32::from(place))?;
    }
    requests.write(publisher, text.as_slice())?;
    let mut gauges = Vec::new(alloc);
    for (number, options) in GAUGES.iter().enumerate() {
        text.begin(path)?;
        text.add(options)?;
        let conn = 5 + place.wrapping_add(number as u16) % 6;
        let gauge = requests.open(conn, READS, text.as_slice())?;
        requests.read(gauge, SIZE)?;
        requests.arm(gauge)?;
        gauges.push(gauge)?;
    }
    let view = requests.open(11, READS, path)?;
    Ok(Unit {
        publisher,
        gauges,
        view,
    })
}

fn units(alloc: Global, requests: &mut Requests) -> Result<Vec<Unit>, Fault> {
    let mut units = Vec::new(alloc);
    let mut text = Text::new(alloc);
    let mut place = 0u16;
    for directory in DIRECTORIES {
        requests.make_directory(1, directory)?;
        for number in 0..UNITS_EACH {
            text.begin(directory)?;
            text.add(b"/unit")?;
            text.add_number(number)?;
            units.push(new_unit(alloc, requests, text.as_slice(), place)?)?;
            place = place.wrapping_add(1);
        }
    }
    Ok(units)
}

// Loggers, which are told of all that changes in a directory.
fn loggers(alloc: Global, requests: &mut Requests) -> Result<Vec<Opened>, Fault> {
    let mut loggers = Vec::new(alloc);
    let mut text = Text::new(alloc);
    for directory in DIRECTORIES {
        text.begin(directory)?;
        text.add(b"/.all?delta,limit=1000")?;
        let logger = requests.open(12, READS, text.as_slice())?;
        requests.read(logger, SIZE)?;
        loggers.push(logger)?;
    }
    Ok(loggers)
}

// One to four attributes get new values.
fn change(text: &mut Text, chance: &mut Chance) -> Result<(), Fault> {
    text.begin(b"")?;
    let first = chance.below(8) as usize;
    for number in 0..1 + chance.below(4) as usize {
        if let Some(name) = ATTRIBUTES.get((first + 3 * number) % 8) {
            text.set(name, chance.below(1_000))?;
        }
    }
    Ok(())
}

// A unit publishes; a gauge that may have been told takes its pulse, reads and asks again.
fn tick(
    requests: &mut Requests,
    chance: &mut Chance,
    text: &mut Text,
    unit: &Unit,
) -> Result<(), Fault> {
    change(text, chance)?;
    requests.write(unit.publisher, text.as_slice())?;
    for gauge in unit.gauges.iter() {
        if chance.once_in(2) {
            requests.receive(gauge.conn)?;
            requests.read(*gauge, SIZE)?;
            requests.arm(*gauge)?;
        }
    }
    if chance.once_in(4) {
        requests.read(unit.view, SIZE)?;
    }
    Ok(())
}

/// The requests of a cluster, for so many changes.
pub(crate) fn ask(
    alloc: Global,
    requests: &mut Requests,
    chance: &mut Chance,
    rounds: u32,
) -> Result<(), Fault> {
    requests.attach(12)?;
    requests.make_directory(1, b"/vehicle")?;
    let units = units(alloc, requests)?;
    let loggers = loggers(alloc, requests)?;
    let mut text = Text::new(alloc);
    for _ in 0..rounds {
        if let Some(unit) = chance.one_of(units.as_slice()) {
            tick(requests, chance, &mut text, unit)?;
        }
        if chance.once_in(16) {
            if let Some(logger) = chance.one_of(loggers.as_slice()) {
                requests.read(*logger, SIZE)?;
            }
        }
    }
    Ok(())
}
