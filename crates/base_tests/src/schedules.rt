use crate::expected::expect;
use run_schedule::{MAX_SCHEDULE_BYTES, ScheduleErr, read};
use std::alloc::Global;
use std::process::Abort;
use std::test::Fail;

// The channels of a text, or why it is no schedule.
fn channels(rt: &impl Abort, alloc: Global, text: &[u8]) -> Result<Vec<u8>, ScheduleErr> {
    assert!(rt; text.len() <= MAX_SCHEDULE_BYTES);
    read(alloc, text)
}

// Stops unless the text is read as the wanted channels.
fn expect_channels(rt: &impl Abort, alloc: Global, text: &[u8], want: &[u8]) -> Result<(), Fail> {
    let found = channels(rt, alloc, text)?;
    expect(rt, found.as_slice(), want);
    Ok(())
}

// Stops unless the text is refused at the wanted place.
fn expect_place(rt: &impl Abort, alloc: Global, text: &[u8], want: u32) {
    let found = channels(rt, alloc, text).map(|channels| channels.len());
    expect(rt, found, Err(ScheduleErr::BadByte(want)));
}

#[test]
fn schedules_are_read(rt: HostRuntime) -> Result<(), Fail> {
    let rows: [(&[u8], &[u8]); 4] = [
        (b"", b""),
        (b" \t\r\n \n", b""),
        (b"0011", b"\0\0\x01\x01"),
        (b"7 0\r\n65", b"\x07\0\x06\x05"),
    ];
    for (text, want) in &rows {
        expect_channels(&rt, rt.alloc(), text, want)?;
    }
    Ok(())
}

#[test]
fn schedules_are_refused(rt: HostRuntime) {
    let rows: [(&[u8], u32); 5] = [
        (b"01x", 2),
        (b"8", 0),
        (b"\n\n012p34p", 5),
        (b"0,1,2", 1),
        (b"0 1 2 -", 6),
    ];
    for (text, want) in &rows {
        expect_place(&rt, rt.alloc(), text, *want);
    }
}

// Stops unless a schedule of this byte alone is what the table of the bytes says.
fn expect_byte(rt: &impl Abort, alloc: Global, byte: u8) -> Result<(), Fail> {
    match byte {
        48..=55 => expect_channels(rt, alloc, &[byte], &[byte - 48]),
        9 | 10 | 13 | 32 => expect_channels(rt, alloc, &[byte], &[]),
        _ => {
            expect_place(rt, alloc, &[byte], 0);
            Ok(())
        }
    }
}

#[test]
fn each_byte_alone(rt: HostRuntime) -> Result<(), Fail> {
    for byte in 0..=255 {
        expect_byte(&rt, rt.alloc(), byte)?;
    }
    Ok(())
}
