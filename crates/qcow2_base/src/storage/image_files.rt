//! Image files by path.

ghost use Rattle.std.specs.Prelude.{◌≡◌, ℕ, false, List, IsOkUnless};
ghost use Rattle.qcow2_base.specs.Storage.ImageFiles.{ClosesImage, OpensImage, PathFile, unknown_file};
ghost use Rattle.qcow2_base.specs.Storage.ImageFile.{OnFile, unknown_content};

use super::{FileStorage, ImageFile};
use crate::Fault;
use std::fs::File;

/// Opens and closes image files by path.
///
/// The implementor says what proofs know of each path's file: nothing, if it opens files of the system. A
/// file with known bytes is a regular one. Proofs know a write to an open file by the path once this trait
/// closes the file. The type of an open file has no `Drop` bound, so generic code can't drop it and must
/// close it.
///
/// Two paths may name one file. A call for one path may then change what proofs know of the other.
pub trait ImageFiles {
    /// An open file.
    type Image: ImageFile;

    /// What proofs know of the file of a path, given as its bytes.
    ghost file_at: { Self → List ℕ → PathFile };

    /// Opens the file of a path for reading, or for reading and writing. It must exist and be no directory.
    /// Changes no byte. Any failure is the storage fault (34).
    fn open_image(&mut self, path: &str, writable: bool) -> Result<FileStorage<Self::Image>, Fault>
        ensures fault { IsOkUnless result Fault.Storage }
        ensures opens { OpensImage Self.Image.content result path.now (file_at self.old) (file_at self.new) };

    /// Closes an open file under a path. The path's file then has its bytes.
    fn close_image(&mut self, path: &str, image: FileStorage<Self::Image>)
        ensures { ClosesImage Self.Image.content image path.now (file_at self.old) (file_at self.new) };

    /// Whether another program has opened the file of a path since it was opened here, so that calls of the
    /// file fail. Never true of a file with known bytes, which nobody else opens.
    fn is_in_use(&self, path: &str) -> bool
        ensures { OnFile (file_at self.now path.now).content (result ≡ false) }
    {
        let _ = path;
        false
    }
}

/// Files of the system.
impl ImageFiles for HostRuntime {
    type Image = File;

    ghost file_at = { λ _ _. unknown_file };

    fn open_image(&mut self, path: &str, writable: bool) -> Result<FileStorage<File>, Fault> {
        FileStorage::open(self, path, writable)
    }

    fn close_image(&mut self, path: &str, image: FileStorage<File>)
        ensures { ClosesImage (λ _. unknown_content) image path.now (λ _. unknown_file) (λ _. unknown_file) }
    {
        let _ = path;
        drop(image);
    }
}
