// This file tests screens over writers that take little and fail, and the screen in memory.

use crate::tests::shared::{Counted, expect_eq};
use ptb_devices::{Screen, TextScreen, WriterScreen};
use ptb_text::{Device, DeviceFault};
use std::process::Abort;

fn put_twice<S: Screen>(screen: &mut S) -> Result<(), DeviceFault> {
    screen.put(b"1234567")?;
    screen.put(b"89")
}

// How many writes of at most five bytes the writer takes, whether all bytes are shown, and which it takes.
const WRITERS: &[(usize, Result<(), DeviceFault>, &[u8])] = &[
    (0, Err(DeviceFault::Write), b""),
    (1, Err(DeviceFault::Write), b"12345"),
    (2, Err(DeviceFault::Write), b"1234567"),
    (3, Ok(()), b"123456789"),
];

#[test]
fn writer_screens(rt: HostRuntime) {
    for &(writes, want, shown) in WRITERS {
        let mut writes_left = writes;
        let mut taken = Vec::new(rt.alloc());
        let mut writer = Device::new(Counted {
            taken: &mut taken,
            most: 5,
            writes_left: &mut writes_left,
        });
        let result = put_twice(&mut WriterScreen::new(&mut writer));
        drop(writer);
        expect_eq(&rt, "writer", (result, taken.as_slice()), (want, shown));
    }
}

// What a screen in memory has shown.
fn expect_shown(rt: &impl Abort, screen: &TextScreen, shown: &[u8]) {
    let found = (screen.bytes(), screen.len());
    expect_eq(rt, "shown", found, (shown, shown.len()));
}

#[test]
fn text_screens(rt: HostRuntime) {
    let mut screen = TextScreen::new(rt.alloc());
    expect_shown(&rt, &screen, b"");
    let first = put_twice(&mut screen);
    expect_shown(&rt, &screen, b"123456789");
    assert!(rt; screen.bytes().len() == 9);
    screen.cut(3);
    expect_shown(&rt, &screen, b"123");
    let mut again = TextScreen::from_vec(screen.into_vec());
    expect_eq(&rt, "put", (first, put_twice(&mut again)), (Ok(()), Ok(())));
    expect_shown(&rt, &again, b"123123456789");
    expect_eq(&rt, "text", again.into_vec().as_slice(), b"123123456789");
}
