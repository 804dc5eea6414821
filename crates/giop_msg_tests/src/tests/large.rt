//! Messages larger than a read: whatever the pieces in which they come, a framer returns them, and
//! out of memory it is as it was.
use giop_msg::{Framer, Msg, WireFault, WireKind};
use std::alloc::{AllocError, Global};
use std::test::Fail;

// The sizes of the messages of a stream. Above 4,096 octets one is large.
const SIZES: [u32; 8] = [4, 5_000, 4_096, 4_097, 9_001, 8, 12_000, 4];

const PIECES: [usize; 11] = [
    11, 12, 13, 100, 4_096, 5_011, 5_012, 5_013, 5_029, 9_117, 40_000,
];

const NO_MEMORY: WireFault = WireFault {
    at: 0,
    kind: WireKind::NoMemory,
};

// A Request of 1.2 of this size, big-endian, whose octets all are its number in the stream.
fn add_message(stream: &mut Vec<u8>, number: u8, size: u32) -> Result<(), AllocError> {
    stream.extend_from_slice(b"GIOP\x01\x02\x00\x00")?;
    stream.extend_from_slice(&size.to_be_bytes())?;
    for _ in 0..size {
        stream.push(number)?;
    }
    Ok(())
}

fn stream(alloc: Global) -> Result<Vec<u8>, AllocError> {
    let mut stream = Vec::new(alloc);
    let mut number = 0;
    for size in SIZES {
        number = number % 100 + 1;
        add_message(&mut stream, number, size)?;
    }
    Ok(stream)
}

// Whether these are the messages of the stream.
fn are_all(messages: &[Msg]) -> bool {
    let mut number = 0;
    for (message, size) in messages.iter().zip(SIZES.iter()) {
        number = number % 100 + 1;
        let octets = message.payload.as_slice();
        if octets.len() != *size as usize || !octets.iter().all(|octet| *octet == number) {
            return false;
        }
    }
    messages.len() == SIZES.len()
}

#[test]
fn large_messages_come_in_any_pieces(rt: HostRuntime) -> Result<(), Fail> {
    let alloc = rt.alloc();
    let stream = stream(alloc)?;
    for size in PIECES {
        let mut framer = Framer::new(alloc, 12_000);
        let mut messages = Vec::new(alloc);
        for piece in stream.as_slice().chunks(size) {
            framer.feed(piece)?;
            for _ in 0..9 {
                if let Some(message) = framer.next()? {
                    messages.push(message)?;
                }
            }
        }
        assert!(rt; are_all(&messages), "in pieces of {size}");
        assert_eq!(rt; framer.rest(), 0);
    }
    Ok(())
}

#[test]
fn large_messages_are_taken_behind_their_last_piece(rt: HostRuntime) -> Result<(), Fail> {
    let alloc = rt.alloc();
    let stream = stream(alloc)?;
    for size in PIECES {
        let mut framer = Framer::new(alloc, 12_000);
        for piece in stream.as_slice().chunks(size) {
            framer.feed(piece)?;
        }
        assert_eq!(rt; framer.rest(), stream.len());
        let mut messages = Vec::new(alloc);
        framer.take_messages(&mut messages)?;
        assert!(rt; are_all(&messages), "in pieces of {size}");
        assert_eq!(rt; framer.rest(), 0);
    }
    Ok(())
}

#[test]
fn a_large_message_above_the_limit_is_refused(rt: HostRuntime) -> Result<(), Fail> {
    let alloc = rt.alloc();
    let stream = stream(alloc)?;
    let mut framer = Framer::new(alloc, 4_999);
    let mut messages = Vec::new(alloc);
    for piece in stream.as_slice().chunks(3_000) {
        framer.feed(piece)?;
        let fault = framer.take_messages(&mut messages).err().ok_or("taken")?;
        assert_eq!(rt; (fault.at, fault.kind), (8, WireKind::TooLarge));
    }
    // The first message alone, of 16 octets, is before it.
    assert_eq!(rt; (messages.len(), framer.rest()), (1, stream.len() - 16));
    Ok(())
}

#[test]
fn a_large_message_without_memory_is_as_it_was(rt: HostRuntime) -> Result<(), Fail> {
    let alloc = rt.alloc();
    let mut stream = Vec::new(alloc);
    let numbers: [(u8, u32); 3] = [(1, 4_500), (2, 4), (3, 4_600)];
    for (number, size) in numbers {
        if add_message(&mut stream, number, size).is_err() {
            return Ok(());
        }
    }
    let mut framer = Framer::new(alloc, 5_000);
    let mut messages = Vec::new(alloc);
    for piece in stream.as_slice().chunks(1_500) {
        let rest = framer.rest();
        if let Err(fault) = framer.feed(piece) {
            assert_eq!(rt; (fault, framer.rest()), (NO_MEMORY, rest));
            framer.feed(piece)?;
        }
        let (rest, taken) = (framer.rest(), messages.len());
        if let Err(fault) = framer.take_messages(&mut messages) {
            assert_eq!(rt; fault, NO_MEMORY);
            assert!(rt; messages.len() > taken || framer.rest() == rest);
            framer.take_messages(&mut messages)?;
        }
    }
    assert_eq!(rt; (messages.len(), framer.rest()), (3, 0));
    for (message, (number, size)) in messages.iter().zip(numbers.iter()) {
        assert_eq!(rt; message.payload.len(), *size as usize);
        assert!(rt;
            message
                .payload
                .as_slice()
                .iter()
                .all(|octet| octet == number)
        );
    }
    Ok(())
}
