//! A device manager: devices come and go, each a directory with objects, and some look at which there are. It is the awkward
//! work: directories are nearly full, and names are made and taken away all the time.

use crate::chance::Chance;
use crate::fault::Fault;
use crate::requests::{MAKES, Opened, READS, Requests};
use crate::text::Text;
use std::alloc::Global;

/// How many places a bus has.
const PLACES: u32 = 200;

const BUSES: [&[u8]; 3] = [b"/dev/bus/usb", b"/dev/bus/pci", b"/dev/network"];

const PARTS: [&[u8]; 4] = [b"/status", b"/control", b"/storage", b"/driver"];

const SIZE: u32 = 1_000_000;

// Those who look at a bus: at which objects there are, at all changes of them, and at the whole of it.
fn watchers(alloc: Global, requests: &mut Requests) -> Result<Vec<Opened>, Fault> {
    let mut watchers = Vec::new(alloc);
    let mut text = Text::new(alloc);
    let mut conn = 2u16;
    for bus in BUSES {
        for options in [
            b"/.all?deltadir".as_slice(),
            b"/.all?delta,limit=64",
            b"/.all?f=state",
        ] {
            text.begin(bus)?;
            text.add(options)?;
            let watcher = requests.open(conn, READS, text.as_slice())?;
            requests.read(watcher, SIZE)?;
            watchers.push(watcher)?;
            conn = conn.wrapping_add(1);
        }
    }
    Ok(watchers)
}

// The path of a device's place.
fn place_path(text: &mut Text, bus: &[u8], place: u32) -> Result<(), Fault> {
    text.begin(bus)?;
    text.add(b"/device-")?;
    text.add_number(place.wrapping_add(1_000))?;
    Ok(())
}

// A device comes: its object on the bus, and a directory of its own with four objects.
fn arrives(
    alloc: Global,
    requests: &mut Requests,
    chance: &mut Chance,
    bus: &[u8],
    place: u32,
) -> Result<Opened, Fault> {
    let mut path = Text::new(alloc);
    place_path(&mut path, bus, place)?;
    let driver = requests.open(1, MAKES, path.as_slice())?;
    let mut text = Text::new(alloc);
    text.set(b"state", chance.below(4))?;
    text.set(b"serial", chance.below(1_000_000_000))?;
    text.add(b"model::A device of some length of name\n")?;
    requests.write(driver, text.as_slice())?;
    path.add(b".parts")?;
    requests.make_directory(1, path.as_slice())?;
    for part in PARTS {
        place_path(&mut path, bus, place)?;
        path.add(b".parts")?;
        path.add(part)?;
        let opened = requests.open(1, MAKES, path.as_slice())?;
        text.begin(b"")?;
        text.set(b"[n]value", chance.below(1_000))?;
        requests.write(opened, text.as_slice())?;
        requests.close(opened)?;
    }
    Ok(driver)
}

// A device goes, with all that it brought.
fn leaves(
    alloc: Global,
    requests: &mut Requests,
    bus: &[u8],
    place: u32,
    driver: Opened,
) -> Result<(), Fault> {
    let mut path = Text::new(alloc);
    for part in PARTS {
        place_path(&mut path, bus, place)?;
        path.add(b".parts")?;
        path.add(part)?;
        requests.unlink(1, path.as_slice())?;
    }
    place_path(&mut path, bus, place)?;
    path.add(b".parts")?;
    requests.unlink(1, path.as_slice())?;
    place_path(&mut path, bus, place)?;
    requests.unlink(1, path.as_slice())?;
    requests.close(driver)
}

// One bus with its devices.
#[derive(Drop)]
struct Bus {
    path: &'static [u8],
    drivers: Vec<Opened>,
}

fn buses(
    alloc: Global,
    requests: &mut Requests,
    chance: &mut Chance,
    count: u32,
) -> Result<Vec<Bus>, Fault> {
    for path in [b"/dev".as_slice(), b"/dev/bus"] {
        requests.make_directory(1, path)?;
    }
    let mut buses = Vec::new(alloc);
    for path in BUSES {
        requests.make_directory(1, path)?;
        let mut drivers = Vec::new(alloc);
        for place in 0..count {
            drivers.push(arrives(alloc, requests, chance, path, place)?)?;
        }
        buses.push(Bus { path, drivers })?;
    }
    Ok(buses)
}

// A device of a bus goes and another one comes in its place.
fn change(
    alloc: Global,
    requests: &mut Requests,
    chance: &mut Chance,
    bus: &mut Bus,
) -> Result<(), Fault> {
    let place = chance.below(PLACES);
    if let Some(driver) = bus.drivers.get_mut(place as usize) {
        leaves(alloc, requests, bus.path, place, *driver)?;
        *driver = arrives(alloc, requests, chance, bus.path, place)?;
    }
    Ok(())
}

// Some devices of a bus say how they are.
fn reports(
    alloc: Global,
    requests: &mut Requests,
    chance: &mut Chance,
    bus: &Bus,
) -> Result<(), Fault> {
    let mut text = Text::new(alloc);
    for _ in 0..8 {
        if let Some(driver) = chance.one_of(bus.drivers.as_slice()) {
            text.begin(b"")?;
            text.set(b"state", chance.below(4))?;
            requests.write(*driver, text.as_slice())?;
        }
    }
    Ok(())
}

/// The requests: in each round a device goes and another one comes, some say how they are, and some look.
pub(crate) fn ask(
    alloc: Global,
    requests: &mut Requests,
    chance: &mut Chance,
    rounds: u32,
) -> Result<(), Fault> {
    requests.attach(16)?;
    let mut buses = buses(alloc, requests, chance, PLACES)?;
    let watchers = watchers(alloc, requests)?;
    for _ in 0..rounds {
        let number = chance.below(3) as usize;
        if let Some(bus) = buses.get_mut(number) {
            change(alloc, requests, chance, bus)?;
            reports(alloc, requests, chance, bus)?;
            requests.list(1, bus.path)?;
        }
        if let Some(watcher) = chance.one_of(watchers.as_slice()) {
            requests.read(*watcher, SIZE)?;
        }
    }
    Ok(())
}
