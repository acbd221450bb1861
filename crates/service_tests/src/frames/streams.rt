//! Streams in pieces.

use super::{FRAMES, event, stream};
use frame_codec::{Decoder, Ended, FeedFault};
use pps_types::Event;
use std::alloc::{AllocError, Global};
use std::process::Abort;
use std::test::Fail;

/// What a stream gives in pieces of that size: its events, and whether a malformed frame follows.
fn fed_by(alloc: Global, stream: &[u8], size: usize) -> Result<(Vec<Event>, bool), FeedFault> {
    let mut decoder = Decoder::new(alloc);
    let mut events = Vec::new(alloc);
    for piece in stream.chunks(size.max(1)) {
        let mut fed = decoder.feed(alloc, piece)?;
        events.append(&mut fed.events)?;
        if fed.bad {
            return Ok((events, true));
        }
    }
    Ok((events, false))
}

/// The event of each of the frames.
fn all_events(alloc: Global) -> Result<Vec<Event>, AllocError> {
    let mut events = Vec::new(alloc);
    for number in 0..FRAMES.len() {
        events.push(event(alloc, number)?)?;
    }
    Ok(events)
}

/// Sees that a stream gives these events in pieces of each size, and whether a malformed frame follows.
fn assert_fed(
    rt: &impl Abort,
    alloc: Global,
    stream: &[u8],
    wanted: &[Event],
    is_bad: bool,
) -> Result<(), FeedFault> {
    for size in 1..=stream.len() {
        let (events, bad) = fed_by(alloc, stream, size)?;
        assert_eq!(rt; bad, is_bad);
        assert_eq!(rt; events.as_slice(), wanted, "{size}");
    }
    Ok(())
}

#[test]
fn a_stream_gives_its_events_in_pieces_of_each_size(rt: HostRuntime) -> Result<(), Fail> {
    let alloc = rt.alloc();
    let mut stream = stream(alloc)?;
    let wanted = all_events(alloc)?;
    assert_fed(&rt, alloc, &stream, &wanted, false)?;
    stream.extend_from_slice(b"\0\0\0\x02\x01\0")?;
    assert_fed(&rt, alloc, &stream, &wanted, true)?;
    Ok(())
}

/// How many of the frames end within so many bytes, and how many bytes are left then.
fn whole_within(mut len: usize) -> (usize, usize) {
    for (number, frame) in FRAMES.iter().enumerate() {
        if len < frame.len() {
            return (number, len);
        }
        len -= frame.len();
    }
    (FRAMES.len(), len)
}

/// How many events a decoder gives for a piece, if that is not malformed, and how many bytes it holds then.
fn feed(
    alloc: Global,
    decoder: &mut Decoder,
    piece: &[u8],
) -> Result<(Option<usize>, usize), FeedFault> {
    let fed = decoder.feed(alloc, piece)?;
    let count = if fed.bad {
        None
    } else {
        Some(fed.events.len())
    };
    Ok((count, decoder.rest()))
}

#[test]
fn a_rest_is_held_until_it_is_whole(rt: HostRuntime) -> Result<(), Fail> {
    let alloc = rt.alloc();
    let stream = stream(alloc)?;
    for cut in 0..=stream.len() {
        let mut decoder = Decoder::new(alloc);
        let (first, second) = stream.split_at(cut);
        let (whole, rest) = whole_within(cut);
        let fed = feed(alloc, &mut decoder, first)?;
        assert!(rt; fed == (Some(whole), rest), "{cut}");
        let ended = if rest == 0 {
            Ended::Clean
        } else {
            Ended::Truncated
        };
        assert_eq!(rt; decoder.ended(), ended, "{cut}");
        let fed = feed(alloc, &mut decoder, second)?;
        assert!(rt; fed == (FRAMES.len().checked_sub(whole), 0), "{cut}");
    }
    Ok(())
}

/// The begins of frames, each with how many of its bytes may come before the frame is malformed, if it is.
const BEGUN: [(&[u8], Option<usize>); 18] = [
    (b"\0\0\0\x02\x01\0", Some(4)),
    (b"\0\0\0\0", Some(4)),
    (b"\0\x02\0\x01\x05\0\x07", Some(4)),
    (b"\xff\xff\xff\xff\x05", Some(4)),
    (b"\0\0\0\x03\0\0\x07", Some(7)),
    (b"\0\0\0\x03\x0c\0\x07", Some(7)),
    (b"\0\0\0\x04\x01\0\x07a", Some(8)),
    (b"\0\0\0\x03\x03\0\x07", Some(7)),
    (b"\0\0\0\x04\x03\0\x07\x10", Some(8)),
    (b"\0\0\0\x0a\x04\0\x07\0\0\0\x01\0\0\0", Some(14)),
    (b"\0\0\0\x06\x05\0\x07\0\0\0", Some(10)),
    (b"\0\0\0\x08\x06\0\x07\0\0\0\x01\0", Some(12)),
    (b"\0\0\0\x0d\x0a\0\x07\0\0\0\x01\x04\x05\0\0\0\0", Some(17)),
    (b"\0\0\0\x0d\x0a\0\x07\0\0\0\x01\0\x05\0\0\0\0", Some(17)),
    (b"\0\0\0\x02", Some(4)),
    (b"\0\0\0\x03", None),
    (b"\0\x02\0\0", None),
    (b"\0\x02\0\x01", Some(4)),
];

/// Sees when the begin of a frame is malformed, given byte by byte and at once, and how many bytes are held then.
fn assert_begun(
    rt: &impl Abort,
    alloc: Global,
    frame: &[u8],
    told: Option<usize>,
) -> Result<(), FeedFault> {
    let begun = frame.get(..told.unwrap_or(frame.len())).unwrap_or(&[]);
    let mut decoder = Decoder::new(alloc);
    let mut count = 0_usize;
    let mut fed = (Some(0), 0);
    for byte in begun {
        assert_eq!(rt; fed.0, Some(0));
        fed = feed(alloc, &mut decoder, &[*byte])?;
        count = count.saturating_add(1);
    }
    let wanted = match told {
        Some(_) => (None, 0),
        None => (Some(0), count),
    };
    assert!(rt; fed == wanted, "{frame:?}");
    if told.is_some() {
        assert_eq!(rt; told, Some(count));
        assert!(rt; feed(alloc, &mut decoder, &[]) == Err(FeedFault::Failed));
        assert_eq!(rt; decoder.ended(), Ended::Malformed);
    }
    assert!(rt;
        feed(alloc, &mut Decoder::new(alloc), begun)? == wanted,
        "{frame:?}"
    );
    Ok(())
}

#[test]
fn malformed_frames_are_told_at_their_place(rt: HostRuntime) -> Result<(), Fail> {
    for (frame, told) in BEGUN {
        assert_begun(&rt, rt.alloc(), frame, told)?;
    }
    Ok(())
}
