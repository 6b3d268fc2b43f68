//! A file as a reader.

use std::io::Read;
use std::rt::Files;
use std::{fs, io};

/// A file, by its name. It is opened at the first read: of two files that are read one after the
/// other, the first that cannot be read is the first that fails. `In` makes a source of it.
#[derive(Drop)]
pub struct NamedFile<'a, R: Files> {
    files: &'a R,
    name: &'a str,
    file: Option<R::File>,
}

impl<'a, R: Files> NamedFile<'a, R> {
    pub fn new(files: &'a R, name: &'a str) -> NamedFile<'a, R> {
        NamedFile {
            files,
            name,
            file: None,
        }
    }
}

// No clause can say what a file holds.
impl<'a, R: Files> Read for NamedFile<'a, R> {
    fn read(&mut self, buf: &mut [u8]) -> io::Result<usize> {
        if let Some(file) = &mut self.file {
            return file.read(buf);
        }
        let mut file = fs::open(self.files, self.name)?;
        let given = file.read(buf);
        self.file = Some(file);
        given
    }
}
