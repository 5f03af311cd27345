// A reader or a writer that fails underway: its error is told, and no listing is said to be done.
use super::list_entry;
use std::io;
use std::io::{ErrorKind, Read, Write};
use std::test::Fail;

// Takes as many bytes as there is room for, and then no more.
#[derive(Drop)]
struct Small {
    room: usize,
}

impl Write for Small {
    fn write(&mut self, buf: &[u8]) -> io::Result<usize> {
        if self.room == 0 {
            return Err(io::Error::from(ErrorKind::StorageFull));
        }
        let n = buf.len().min(self.room);
        self.room -= n;
        Ok(n)
    }

    fn flush(&mut self) -> io::Result<()> {
        Ok(())
    }
}

// Gives a byte, and then fails.
#[derive(Drop)]
struct Broken {
    given: bool,
}

impl Read for Broken {
    fn read(&mut self, buf: &mut [u8]) -> io::Result<usize> {
        if self.given || buf.is_empty() {
            return Err(io::Error::from(ErrorKind::TimedOut));
        }
        self.given = true;
        buf[0] = b'a';
        Ok(1)
    }
}

#[test]
fn full_writer(rt: HostRuntime) -> Result<(), Fail> {
    let mut entry: &[u8] = b"a";
    let listed = list_entry(&mut entry, &mut Small { room: 12 });
    let Err(failure) = listed else {
        assert!(rt; false, "a listing of more bytes was written");
        return Ok(());
    };
    let said = format!(in rt.alloc(); "{failure}")?;
    assert_eq!(rt;
        said.as_str(),
        "the listing could not be written: no storage space"
    );
    Ok(())
}

#[test]
fn broken_reader(rt: HostRuntime) -> Result<(), Fail> {
    let listed = list_entry(&mut Broken { given: false }, &mut Small { room: 1000 });
    let Err(failure) = listed else {
        assert!(rt; false, "an entry was read");
        return Ok(());
    };
    let said = format!(in rt.alloc(); "{failure}")?;
    assert_eq!(rt; said.as_str(), "the entry could not be read: timed out");
    Ok(())
}
