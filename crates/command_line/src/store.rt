//! Where the certificate of a run goes.

ghost use Rattle.std.specs.Prelude.{◌≡◌, ◌<◌, ◌+◌, ◌-◌, ◌^◌, List, ℕ, Option, None, OnErr, OnOk};
ghost use Rattle.command_line.specs.Store.{IsSaved, IsUnsaved, KeepsOthers, Tells};
ghost use Rattle.command_line.specs.Job.{bytes_of};

use std::rt::Files;
use std::{fs, io};
use thiserror::Error;

/// The file could not be written, of which the system said this.
#[derive(Clone, Copy, Debug, Error)]
#[error("the file could not be written: {0}")]
pub struct StoreFailed(pub io::Error);

/// Keeps whole files, and counts how often a write failed.
///
/// The count fits 64 bits: whoever hands in a store knows that one more failure still does.
pub trait Store {
    // The bytes of the file with this path, where it tells them. Each path stands for a file of its
    // own.
    ghost held: { Self → List ℕ → Option (List ℕ) };

    ghost failures: { Self → ℕ };

    /// Makes the bytes the whole of the file with this path. After `StoreFailed` nothing is known
    /// of that file. All others stay as they are.
    fn write(&mut self, path: &str, bytes: &[u8]) -> Result<(), StoreFailed>
        requires room { failures self.old < 2 ^ 64 - 1 }
        ensures written { OnOk result (Tells (held self.new path.now) bytes.now) }
        ensures others { KeepsOthers held path.now self.old self.new }
        ensures succeeded { OnOk result (failures self.new ≡ failures self.old) }
        ensures failed { OnErr result (failures self.new ≡ failures self.old + 1) };
}

/// The files of the system. They don't tell what they hold.
#[derive(Drop)]
pub struct Disk<'a, R> {
    files: &'a R,
    failures: u64,
}

impl<'a, R> Disk<'a, R> {
    /// The files that are reached so. No write has failed yet.
    pub fn new(files: &'a R) -> Disk<'a, R>
        ensures files { result.files ≡ files.entry }
        ensures failures { result.failures ≡ 0 }
    {
        Disk { files, failures: 0 }
    }
}

impl<'a, R: Files> Store for Disk<'a, R> {
    ghost held = { λ _ _. None };

    ghost failures = { λ disk. disk.failures };

    fn write(&mut self, path: &str, bytes: &[u8]) -> Result<(), StoreFailed> {
        match fs::write(self.files, path, bytes) {
            Ok(()) => Ok(()),
            Err(error) => {
                self.failures += 1;
                Err(StoreFailed(error))
            }
        }
    }
}

/// Writes the certificate to the file that is named for it. Where none is named, or there is no
/// certificate, nothing is written. `StoreFailed` comes exactly where that write failed, and then
/// all other files are as they were.
pub fn save<D: Store>(
    store: &mut D,
    path: Option<&str>,
    certificate: &[u8],
) -> Result<(), StoreFailed>
    requires { D.failures store.old < 2 ^ 64 - 1 }
    ensures saved { OnOk result
        (IsSaved D.held (bytes_of path.entry) certificate.now store.old store.new) }
    ensures succeeded { OnOk result (D.failures store.new ≡ D.failures store.old) }
    ensures failed { OnErr result (D.failures store.new ≡ D.failures store.old + 1) }
    ensures unsaved { OnErr result
        (IsUnsaved D.held (bytes_of path.entry) certificate.now store.old store.new) }
{
    match path {
        Some(path) if !certificate.is_empty() => store.write(path, certificate),
        _ => Ok(()),
    }
}
