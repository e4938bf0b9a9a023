//! The key of a session's cache. No clause says what a source gives.
use fact_cache::Key;
use std::io;
use std::random::RandomSource;
use std::test::Fail;
use top_calls::key::key_of;

/// A source that gives the same byte again and again.
struct Fives;

impl RandomSource for Fives {
    fn fill_bytes(&self, buf: &mut [u8]) -> io::Result<()> {
        for byte in buf.iter_mut() {
            *byte = 5;
        }
        Ok(())
    }
}

/// A source that gives nothing.
struct Broken;

impl RandomSource for Broken {
    fn fill_bytes(&self, _buf: &mut [u8]) -> io::Result<()> {
        Err(io::Error::from_raw_os_error(5))
    }
}

#[test]
fn the_key_is_what_the_source_gives(rt: HostRuntime) -> Result<(), Fail> {
    let fives = key_of(&Fives);
    assert_eq!(rt; fives.point, 0x0505_0505_0505_0505);
    assert_eq!(rt; fives.factor, 0x0505_0505_0505_0505);
    let none = key_of(&Broken);
    assert_eq!(rt; none.point, Key::KNOWN.point);
    assert_eq!(rt; none.factor, Key::KNOWN.factor);
    let one = key_of(&rt);
    let other = key_of(&rt);
    assert!(rt; one.point != other.point);
    assert!(rt; one.factor != other.factor);
    Ok(())
}
