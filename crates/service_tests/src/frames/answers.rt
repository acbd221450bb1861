//! Answers as frames.
ghost use Rattle.std.specs.Prelude.{IfOk};
ghost use Rattle.pps_types.specs.Outcome.{IsSendable};

use crate::scripts::shared;
use frame_codec::{encode_outcome, put_outcome};
use pps_types::{Conn, Handle, Item, Outcome, Refusal};
use std::alloc::{AllocError, Global};
use std::test::Fail;

/// An answer of each form.
fn answer(alloc: Global, number: usize) -> Result<Result<Outcome, Refusal>, AllocError>
    ensures { IfOk result (λ a. IsSendable a) }
{
    let handle = Handle::new(1);
    Ok(match number {
        0 => Ok(Outcome::Done),
        1 => Ok(Outcome::Opened(handle)),
        2 => Ok(Outcome::Data(shared(alloc, b"@lamp\non:b:true\n")?)),
        3 => Ok(Outcome::Wrote(10)),
        4 => Ok(Outcome::Parked),
        5 => Ok(Outcome::Input(true)),
        6 => Ok(Outcome::Input(false)),
        7 => Ok(Outcome::Item(Item::Pulse {
            code: 5,
            value: 300,
        })),
        8 => Ok(Outcome::Item(Item::ReadDone {
            handle,
            result: Ok(shared(alloc, b"a")?),
        })),
        9 => Ok(Outcome::Item(Item::ReadDone {
            handle,
            result: Err(Refusal::BadHandle),
        })),
        10 => Ok(Outcome::Empty),
        11 => Err(Refusal::TooSmall { need: 16 }),
        12 => Err(Refusal::NotFound),
        _ => Err(Refusal::BadFrame),
    })
}

/// The connections that these answers are for, and their frames. A malformed frame is answered by no connection.
const FRAMES: [(u16, &[u8]); 14] = [
    (7, b"\0\0\0\x03\0\x07\x01"),
    (7, b"\0\0\0\x07\0\x07\x02\0\0\0\x01"),
    (7, b"\0\0\0\x13\0\x07\x03@lamp\non:b:true\n"),
    (7, b"\0\0\0\x07\0\x07\x04\0\0\0\x0a"),
    (7, b"\0\0\0\x03\0\x07\x05"),
    (7, b"\0\0\0\x04\0\x07\x06\x01"),
    (7, b"\0\0\0\x04\0\x07\x06\0"),
    (7, b"\0\0\0\x08\0\x07\x07\x05\0\0\x01\x2c"),
    (7, b"\0\0\0\x08\0\x07\x08\0\0\0\x01a"),
    (7, b"\0\0\0\x0c\0\x07\x09\0\0\0\x01\x0d\0\0\0\0"),
    (7, b"\0\0\0\x03\0\x07\x0a"),
    (7, b"\0\0\0\x08\0\x07\0\x13\0\0\0\x10"),
    (7, b"\0\0\0\x08\0\x07\0\x07\0\0\0\0"),
    (0, b"\0\0\0\x08\0\0\0\x02\0\0\0\0"),
];

/// The frame of the answer of that number.
fn encoded(alloc: Global, conn: u16, number: usize) -> Result<Vec<u8>, Refusal> {
    encode_outcome(alloc, Conn::new(conn), &answer(alloc, number)?)
}

#[test]
fn each_answer_has_its_frame(rt: HostRuntime) -> Result<(), Fail> {
    for (number, (conn, frame)) in FRAMES.iter().enumerate() {
        let encoded = encoded(rt.alloc(), *conn, number)?;
        assert_eq!(rt; encoded.as_slice(), *frame, "{number}");
    }
    Ok(())
}

#[test]
fn a_buffer_holds_the_last_frame_alone(rt: HostRuntime) -> Result<(), Fail> {
    let alloc = rt.alloc();
    let mut buffer = Vec::from_slice(alloc, b"what an answer before it left")?;
    for (number, (conn, frame)) in FRAMES.iter().enumerate() {
        put_outcome(
            alloc,
            &mut buffer,
            Conn::new(*conn),
            &answer(alloc, number)?,
        )?;
        assert_eq!(rt; buffer.as_slice(), *frame, "{number}");
    }
    Ok(())
}
