//! A shelf over a folder.
use crate::disks::{FileDisk, count_failed};
use disk_model::{NoMemory, Shelf, ShelfError};
use std::alloc::Global;
use std::fs::{Files, OpenFile, OpenOptions};
use std::io;
use std::io::ErrorKind;

/// Disks in the files of a folder, each under its name. It tells neither their bytes nor which were given back: a file
/// stays what it is, and a disk under its name is that file again.
#[derive(Drop)]
pub struct FileShelf<R> {
    files: R,
    folder: String,
    faults: u64,
}

impl<R: Files + Drop> FileShelf<R> {
    ghost use Rattle.std.specs.Prelude.{◌≡◌, IfOk};
    ghost use Rattle.file_shelf.specs.Shown.{shelf_faults};

    /// A shelf over the folder of this path, which is made with its first disk where it isn't there.
    pub fn new(alloc: Global, files: R, folder: &str) -> Result<FileShelf<R>, NoMemory>
        ensures { IfOk result (λ shelf. shelf_faults shelf ≡ 0) }
    {
        Ok(FileShelf {
            files,
            folder: String::from_str(alloc, folder)?,
            faults: 0,
        })
    }
}

/// The path of a disk's file.
fn path_of(alloc: Global, folder: &str, name: &str) -> Result<String, NoMemory> {
    Ok(format!(in alloc; "{folder}/{name}")?)
}

/// Sees to a folder: it is there, or is made.
fn see_to_folder<R: Files>(files: &R, folder: &str) -> io::Result<()> {
    match files.metadata(folder) {
        Ok(_) => Ok(()),
        Err(error) if error.kind() == ErrorKind::NotFound => files.create_dir(folder),
        Err(error) => Err(error),
    }
}

/// Makes a file of so many zero bytes, where none is.
fn make_file<R: Files>(files: &R, path: &str, size: u64) -> io::Result<R::File> {
    let file = OpenOptions::new()
        .read(true)
        .write(true)
        .create_new(true)
        .open(files, path)?;
    file.set_len(size)?;
    file.sync_all()?;
    Ok(file)
}

/// Opens a file that is there. One of another size is no disk that this shelf gave.
fn open_file<R: Files>(files: &R, path: &str, size: u64) -> io::Result<R::File> {
    let file = OpenOptions::new().read(true).write(true).open(files, path)?;
    if file.metadata()?.len() == size {
        Ok(file)
    } else {
        Err(io::Error::from(ErrorKind::InvalidData))
    }
}

/// Opens the file of a disk, or makes it, and its folder before it.
fn file_of<R: Files>(files: &R, folder: &str, path: &str, size: u64) -> io::Result<R::File> {
    see_to_folder(files, folder)?;
    match open_file(files, path, size) {
        Err(error) if error.kind() == ErrorKind::NotFound => make_file(files, path, size),
        opened => opened,
    }
}

impl<R: Files> Shelf for FileShelf<R>
where
    R::File: Send,
{
    type D = FileDisk<R::File>;

    ghost use Rattle.file_shelf.specs.Shown.{shelf_lawful, shelf_state};

    ghost state = { shelf_state };

    ghost lawful = { shelf_lawful };

    fn take(
        &mut self,
        alloc: Global,
        name: &str,
        size: u64,
    ) -> Result<FileDisk<R::File>, ShelfError> {
        let folder = self.folder.as_str();
        let path = path_of(alloc, folder, name)?;
        let found = file_of(&self.files, folder, path.as_str(), size);
        match count_failed(found, &mut self.faults) {
            Ok(file) => Ok(FileDisk::new(file, size)),
            Err(_) => Err(ShelfError::Failed),
        }
    }

    fn give(&mut self, _name: &str, disk: FileDisk<R::File>) {
        drop(disk);
    }
}
