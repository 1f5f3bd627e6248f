//! What is saved, in memory and on the disk.
ghost use Rattle.std.specs.Prelude.{◌≡◌, None};

use command_line::{Disk, Store, StoreFailed, save};
use std::alloc::{AllocError, Global};
use std::test::Fail;
use std::{fs, io};

/// One file in memory, or none where its writes fail.
#[derive(Drop)]
struct OneFile {
    fails: bool,
    failures: u64,
    path: String,
    bytes: Vec<u8>,
}

impl OneFile {
    fn new(alloc: Global, fails: bool) -> OneFile
        ensures { result.failures ≡ 0 }
    {
        OneFile {
            fails,
            failures: 0,
            path: String::new(alloc),
            bytes: Vec::new(alloc),
        }
    }

    fn replace(&mut self, path: &str, bytes: &[u8]) -> Result<(), AllocError>
        ensures { self.new.failures ≡ self.old.failures }
    {
        self.path.clear();
        self.path.push_str(path)?;
        self.bytes.clear();
        self.bytes.extend_from_slice(bytes)
    }
}

impl Store for OneFile {
    ghost held = { λ _ _. None };

    ghost failures = { λ store. store.failures };

    fn write(&mut self, path: &str, bytes: &[u8]) -> Result<(), StoreFailed> {
        if self.fails || self.replace(path, bytes).is_err() {
            self.failures += 1;
            return Err(StoreFailed(io::Error::from(io::ErrorKind::StorageFull)));
        }
        Ok(())
    }
}

#[test]
fn saves_to_the_named_file(rt: HostRuntime) -> Result<(), Fail> {
    let mut store = OneFile::new(rt.alloc(), false);
    save(&mut store, Some("a.cert"), b"first")?;
    save(&mut store, Some("b.cert"), b"last")?;
    assert_eq!(rt;
        (store.path.as_str(), store.bytes.as_slice()),
        ("b.cert", b"last".as_slice())
    );
    Ok(())
}

#[test]
fn nothing_to_save(rt: HostRuntime) {
    let mut store = OneFile::new(rt.alloc(), true);
    let unnamed = save(&mut store, None, b"text");
    let empty = save(&mut store, Some("a.cert"), b"");
    let failed = save(&mut store, Some("a.cert"), b"text");
    assert_eq!(rt;
        (
            unnamed.is_ok(),
            empty.is_ok(),
            failed.is_err(),
            store.failures
        ),
        (true, true, true, 1)
    );
}

// The text of the file of the certificate on the disk, after a longer one and then a shorter one
// were saved.
fn saved_twice(rt: &HostRuntime, path: &str) -> io::Result<Vec<u8>> {
    let mut disk = Disk::new(rt);
    let longer = save(&mut disk, Some(path), b"longer");
    let shorter = save(&mut disk, Some(path), b"short");
    let text = fs::read(rt, path)?;
    fs::remove_file(rt, path)?;
    if longer.is_err() || shorter.is_err() {
        return Err(io::Error::from(io::ErrorKind::Other));
    }
    Ok(text)
}

#[test]
fn saves_to_the_disk(rt: HostRuntime) -> Result<(), Fail> {
    let text = saved_twice(&rt, "saved_twice.cert")?;
    assert_eq!(rt; text.as_slice(), b"short".as_slice());
    Ok(())
}
