//! A telephony stack behind a server object: 200 clients ask, and are answered.

use crate::chance::Chance;
use crate::fault::Fault;
use crate::requests::{ASKS, MAKES, Opened, Requests};
use crate::text::Text;
use std::alloc::Global;

/// The last connection of a client. The server's is the first.
const LAST: u16 = 201;

const ACTIONS: [&[u8]; 5] = [
    b"msg::dial\n",
    b"msg::hold\n",
    b"msg::transfer\n",
    b"msg::hangup\n",
    b"msg::status\n",
];

const SIZE: u32 = 65_536;

fn clients(alloc: Global, requests: &mut Requests) -> Result<Vec<Opened>, Fault> {
    let mut clients = Vec::new(alloc);
    for conn in 2..=LAST {
        let text: &[u8] = if conn % 2 == 0 {
            b"/phone?wait"
        } else {
            b"/phone"
        };
        let client = requests.open(conn, ASKS, text)?;
        requests.read(client, SIZE)?;
        clients.push(client)?;
    }
    Ok(clients)
}

// A client asks; every other one then waits for its answer.
fn question(
    requests: &mut Requests,
    chance: &mut Chance,
    text: &mut Text,
    client: Opened,
    number: u32,
) -> Result<(), Fault> {
    let action = chance.one_of(ACTIONS.as_slice());
    text.begin(action.copied().unwrap_or(b""))?;
    text.set(b"id", number)?;
    text.add(b"dat:json:{\"line\":")?;
    text.add_number(chance.below(100))?;
    text.add(b",\"party\":\"")?;
    text.add_number(chance.below(1_000_000_000))?;
    text.add(b"\"}\n")?;
    requests.write(client, text.as_slice())?;
    if client.conn % 2 == 0 {
        requests.read(client, SIZE)?;
    }
    Ok(())
}

// The server answers one client, which takes its answer.
fn answer(
    requests: &mut Requests,
    chance: &mut Chance,
    text: &mut Text,
    server: Opened,
    client: Opened,
    number: u32,
) -> Result<(), Fault> {
    text.begin(b"@phone.")?;
    text.add_number(client.handle)?;
    text.add(b"\nres::ok\n")?;
    text.set(b"id", number)?;
    text.set(b"cost", chance.below(10_000))?;
    requests.write(server, text.as_slice())?;
    if client.conn % 2 == 0 {
        requests.receive(client.conn)
    } else {
        requests.read(client, SIZE)
    }
}

// Some clients that follow each other ask, and are answered.
fn some_ask(
    requests: &mut Requests,
    chance: &mut Chance,
    text: &mut Text,
    server: Opened,
    asking: &[Opened],
    number: u32,
) -> Result<(), Fault> {
    for client in asking {
        question(requests, chance, text, *client, number)?;
    }
    requests.read(server, SIZE)?;
    for client in asking {
        answer(requests, chance, text, server, *client, number)?;
    }
    Ok(())
}

/// The requests: in each round some clients ask, and are answered; now and then the server tells all clients something.
pub(crate) fn ask(
    alloc: Global,
    requests: &mut Requests,
    chance: &mut Chance,
    rounds: u32,
) -> Result<(), Fault> {
    requests.attach(LAST)?;
    let server = requests.open(1, MAKES, b"/phone?server")?;
    let clients = clients(alloc, requests)?;
    let mut text = Text::new(alloc);
    for number in 0..rounds {
        let first = chance.below(190) as usize;
        let count = 1 + chance.below(10) as usize;
        if let Some(asking) = clients.get(first..first + count) {
            some_ask(requests, chance, &mut text, server, asking, number)?;
        }
        if chance.once_in(200) {
            text.begin(b"network::")?;
            text.add_number(chance.below(6))?;
            text.add(b"\n")?;
            requests.write(server, text.as_slice())?;
        }
    }
    Ok(())
}
