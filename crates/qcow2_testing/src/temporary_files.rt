//! Files of tests in the temporary folder.

use crate::same_bytes;
use std::fmt::Debug;
use std::rt::Files;
use std::test::Fail;
use std::{env, fs, process};

/// A file under a name of its own in the temporary folder. Dropping it deletes the file.
pub struct TemporaryFile<'a, R: Files> {
    files: &'a R,
    /// The path of the file.
    pub path: String,
}

impl<R: Files> Drop for TemporaryFile<'_, R> {
    fn drop(self) {
        let _ = fs::remove_file(self.files, self.path.as_str());
        let TemporaryFile { files: _, path: _ } = self;
    }
}

/// A path in the temporary folder for a new file.
pub fn temporary_path(rt: &HostRuntime, name: &str) -> Result<String, Fail> {
    let id = process::id(rt.process());
    let name = format!(in rt.alloc(); "qcow2-tests-{id}-{name}")?;
    let path = env::temp_dir(rt)?.join(rt.alloc(), name.as_str())?;
    Ok(path.into_string())
}

/// Makes a file of these bytes in the temporary folder.
pub fn temporary_file<'a>(
    rt: &'a HostRuntime,
    name: &str,
    bytes: &[u8],
) -> Result<TemporaryFile<'a, HostRuntime>, Fail> {
    let path = temporary_path(rt, name)?;
    fs::write(rt, path.as_str(), bytes)?;
    Ok(TemporaryFile { files: rt, path })
}

/// Fails unless the file has exactly these bytes.
pub fn file_holds<R: Debug + Drop>(
    rt: &HostRuntime,
    path: &str,
    bytes: &[u8],
    row: R,
) -> Result<(), Fail> {
    same_bytes(fs::read(rt, path)?.as_slice(), bytes, row)
}
