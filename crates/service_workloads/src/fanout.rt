//! One publisher and a thousand subscribers.

use crate::chance::Chance;
use crate::fault::Fault;
use crate::requests::{MAKES, Opened, READS, Requests};
use crate::text::Text;
use std::alloc::Global;

/// The last connection of a subscriber. The publisher's is the first.
const LAST: u16 = 1_001;

/// What subscribers ask for.
const KINDS: [&[u8]; 4] = [
    b"/position?delta",
    b"/position?delta,f=latitude+longitude",
    b"/position?delta,wait",
    b"/position?delta,limit=8",
];

const ATTRIBUTES: [&[u8]; 6] = [
    b"latitude",
    b"longitude",
    b"altitude",
    b"heading",
    b"speed",
    b"satellites",
];

const SIZE: u32 = 65_536;

fn subscribers(alloc: Global, requests: &mut Requests) -> Result<Vec<Opened>, Fault> {
    let mut subscribers = Vec::new(alloc);
    for conn in 2..=LAST {
        if let Some(text) = KINDS.get(usize::from(conn) % 4) {
            let subscriber = requests.open(conn, READS, text)?;
            requests.read(subscriber, SIZE)?;
            subscribers.push(subscriber)?;
        }
    }
    Ok(subscribers)
}

// Two or three attributes get new values.
fn change(text: &mut Text, chance: &mut Chance) -> Result<(), Fault> {
    text.begin(b"")?;
    let first = chance.below(6) as usize;
    for number in 0..2 + chance.below(2) as usize {
        if let Some(name) = ATTRIBUTES.get((first + number) % 6) {
            text.set(name, chance.below(1_000_000))?;
        }
    }
    Ok(())
}

/// The requests: one to four changes in each round, and then almost all subscribers read, and take a late reply if there
/// is one.
pub(crate) fn ask(
    alloc: Global,
    requests: &mut Requests,
    chance: &mut Chance,
    rounds: u32,
) -> Result<(), Fault> {
    requests.attach(LAST)?;
    let publisher = requests.open(1, MAKES, b"/position")?;
    let subscribers = subscribers(alloc, requests)?;
    let mut text = Text::new(alloc);
    for _ in 0..rounds {
        for _ in 0..1 + chance.below(4) {
            change(&mut text, chance)?;
            requests.write(publisher, text.as_slice())?;
        }
        'subscribers: for subscriber in subscribers.iter() {
            if chance.once_in(16) {
                continue 'subscribers;
            }
            if subscriber.conn % 4 == 2 {
                requests.receive(subscriber.conn)?;
            }
            requests.read(*subscriber, SIZE)?;
        }
    }
    Ok(())
}
