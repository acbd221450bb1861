//! Trip records: objects with many attributes and long values, and readers that come late.

use crate::chance::Chance;
use crate::fault::Fault;
use crate::requests::{MAKES, Opened, READS, Requests};
use crate::text::Text;
use std::alloc::Global;

const TRIPS: u32 = 8;

const ATTRIBUTES: u32 = 200;

/// What readers ask for behind the path.
const READERS: [&[u8]; 5] = [
    b"?delta,limit=65535",
    b"?delta,limit=16",
    b"?delta,f=leg007+leg017>300+leg027+leg037!=0+leg047+leg057+leg067,limit=300",
    b"",
    b"?f=leg001+leg002+leg003+leg004+leg005+leg006+leg007+leg008+leg009+leg010",
];

const STREETS: [&[u8]; 4] = [
    b"Main Street, then the bridge over the river",
    b"the long road along the coast, with a ferry at its end",
    b"Ring Road",
    b"through the old town, where only residents may go by car",
];

const SIZE: u32 = 1_000_000;

#[derive(Drop)]
struct Trip {
    publisher: Opened,
    readers: Vec<Opened>,
}

// A line of a leg, with a number or a text.
fn leg(text: &mut Text, chance: &mut Chance, number: u32) -> Result<(), Fault> {
    text.add(b"leg")?;
    text.add_number(number / 100 % 10)?;
    text.add_number(number / 10 % 10)?;
    text.add_number(number % 10)?;
    if chance.once_in(3) {
        text.add(b"::")?;
        text.add(chance.one_of(STREETS.as_slice()).copied().unwrap_or(b""))?;
        text.add(b" ")?;
    } else {
        text.add(b":n:")?;
    }
    text.add_number(chance.below(1_000))?;
    text.add(b"\n")?;
    Ok(())
}

// A trip with all its legs, its publisher and its readers.
fn new_trip(
    alloc: Global,
    requests: &mut Requests,
    chance: &mut Chance,
    number: u32,
) -> Result<Trip, Fault> {
    let mut path = Text::new(alloc);
    path.begin(b"/trip")?;
    path.add_number(number)?;
    let publisher = requests.open(1, MAKES, path.as_slice())?;
    let mut text = Text::new(alloc);
    for attribute in 0..ATTRIBUTES {
        leg(&mut text, chance, attribute)?;
    }
    requests.write(publisher, text.as_slice())?;
    let mut readers = Vec::new(alloc);
    for options in READERS {
        text.begin(path.as_slice())?;
        text.add(options)?;
        let reader = requests.open(2, READS, text.as_slice())?;
        requests.read(reader, SIZE)?;
        readers.push(reader)?;
    }
    Ok(Trip { publisher, readers })
}

fn trips(alloc: Global, requests: &mut Requests, chance: &mut Chance) -> Result<Vec<Trip>, Fault> {
    let mut trips = Vec::new(alloc);
    for number in 0..TRIPS {
        trips.push(new_trip(alloc, requests, chance, number)?)?;
    }
    Ok(trips)
}

// Up to 24 legs of a trip change, or one is taken away.
fn change(
    requests: &mut Requests,
    chance: &mut Chance,
    text: &mut Text,
    trip: &Trip,
) -> Result<(), Fault> {
    text.begin(b"")?;
    let first = chance.below(ATTRIBUTES);
    if chance.once_in(20) {
        text.add(b"-leg")?;
        text.add_number(100 + first / 2)?;
        text.add(b"\n")?;
    }
    for number in 0..1 + chance.below(24) {
        leg(text, chance, (first + 7 * number) % ATTRIBUTES)?;
    }
    requests.write(trip.publisher, text.as_slice())
}

/// The requests: trips change all the time, and one reader in so many rounds comes and reads what it is owed.
pub(crate) fn ask(
    alloc: Global,
    requests: &mut Requests,
    chance: &mut Chance,
    rounds: u32,
) -> Result<(), Fault> {
    requests.attach(2)?;
    let trips = trips(alloc, requests, chance)?;
    let mut text = Text::new(alloc);
    for _ in 0..rounds {
        for _ in 0..4 {
            if let Some(trip) = chance.one_of(trips.as_slice()) {
                change(requests, chance, &mut text, trip)?;
            }
        }
        if let Some(trip) = chance.one_of(trips.as_slice()) {
            if let Some(reader) = chance.one_of(trip.readers.as_slice()) {
                requests.read(*reader, SIZE)?;
            }
        }
    }
    Ok(())
}
