//! The files of shards in a folder. Of shard 3, `3.edn` has the maps, `3.places` their numbers in
//! the full history, and `3.evidence` and `3.status`, which others write, what was found of it. The
//! file `shards` has the number of the shards, and then the number of the maps of each. It is made
//! last, so a folder without it has no full history.

ghost use Rattle.std.specs.Prelude.{⊤, ◌≡◌, ◌<◌, ◌^◌, IfOk, None, false, is_some, length};

use edn::Failed;
use file_commands::{
    Folder, In, NamedFile, ReadFault, ShardFault, ShardFile, ShardFileTexts, ShardFiles,
    StatusFiles, TableFault, counts_in, counts_text, read_text,
};
use std::alloc::{AllocError, Global};
use std::fs::{self, File, OpenFile, OpenOptions};
use std::io::{self, ErrorKind, Read, Write};
use std::rt::Files;

/// What the name of a file of a shard ends with.
pub fn ending_of(file: ShardFile) -> &'static str {
    match file {
        ShardFile::Text => "edn",
        ShardFile::Table => "places",
        ShardFile::Evidence => "evidence",
        ShardFile::Status => "status",
    }
}

/// Why the files of shards were not made.
#[derive(Drop)]
pub enum MakeFault {
    /// The folder has this file, which may be one of another split.
    Taken(String),
    /// The folder or a file failed, or an allocation.
    Failed(io::Error),
}

impl From<io::Error> for MakeFault {
    fn from(error: io::Error) -> MakeFault {
        MakeFault::Failed(error)
    }
}

impl From<AllocError> for MakeFault {
    fn from(error: AllocError) -> MakeFault {
        MakeFault::Failed(io::Error::from(error))
    }
}

/// Why the numbers of the maps of the shards were not read.
#[derive(Clone, Copy)]
pub enum CountsFault {
    /// The file could not be read.
    Unread,
    /// It does not say how many maps each shard has.
    Misfit,
    NoMemory,
}

impl From<AllocError> for CountsFault {
    fn from(_error: AllocError) -> CountsFault {
        CountsFault::NoMemory
    }
}

impl From<ReadFault> for CountsFault {
    fn from(fault: ReadFault) -> CountsFault {
        match fault {
            ReadFault::NoMemory => CountsFault::NoMemory,
            ReadFault::Failed => CountsFault::Unread,
        }
    }
}

impl From<TableFault> for CountsFault {
    fn from(fault: TableFault) -> CountsFault {
        match fault {
            TableFault::NoMemory => CountsFault::NoMemory,
            TableFault::Misfit => CountsFault::Misfit,
        }
    }
}

/// The files of a shard that may be there, whoever writes them.
const SHARD_FILES: [ShardFile; 4] = [
    ShardFile::Text,
    ShardFile::Table,
    ShardFile::Evidence,
    ShardFile::Status,
];

/// A folder, by its name.
#[derive(Drop)]
pub struct ShardFolder<'a, R: Files> {
    files: &'a R,
    alloc: Global,
    name: &'a str,
    failure: Option<ErrorKind>,
}

/// Makes a folder, if it is not there.
fn make_folder<R: Files>(files: &R, name: &str) -> io::Result<()> {
    match fs::create_dir(files, name) {
        Err(error) if error.kind() != ErrorKind::AlreadyExists => Err(error),
        _ => Ok(()),
    }
}

impl<'a, R: Files> ShardFolder<'a, R> {
    pub fn new(files: &'a R, alloc: Global, name: &'a str) -> ShardFolder<'a, R>
        ensures { is_some result.failure ≡ false }
    {
        ShardFolder {
            files,
            alloc,
            name,
            failure: None,
        }
    }

    /// The name of the file with the numbers of the maps of the shards.
    fn count_path(&self) -> Result<String, AllocError> {
        format!(in self.alloc; "{}/shards", self.name)
    }

    /// The name of a file of a shard.
    fn path(&self, shard: u16, file: ShardFile) -> Result<String, AllocError> {
        let ending = ending_of(file);
        format!(in self.alloc; "{}/{shard}.{ending}", self.name)
    }

    /// Makes the files of this shard, which are empty. Neither may be there, so that of two that
    /// make them at once one fails.
    fn make_shard(&self, shard: u16) -> io::Result<()> {
        let text = self.path(shard, ShardFile::Text)?;
        let table = self.path(shard, ShardFile::Table)?;
        File::create_new(self.files, &text)?;
        match File::create_new(self.files, &table) {
            Ok(_) => Ok(()),
            Err(error) => {
                let _ = fs::remove_file(self.files, &text);
                Err(error)
            }
        }
    }

    /// Refuses a file that is there.
    fn refuse(&self, path: String) -> Result<(), MakeFault> {
        if fs::exists(self.files, &path)? {
            return Err(MakeFault::Taken(path));
        }
        Ok(())
    }

    /// Refuses a folder that has a file of this shard, also one that is written later: it would be
    /// taken for one of the new shard.
    fn refuse_shard(&self, shard: u16) -> Result<(), MakeFault> {
        for file in SHARD_FILES {
            self.refuse(self.path(shard, file)?)?;
        }
        Ok(())
    }

    /// Makes the files of this many shards, in a folder that has none. If some file cannot be made,
    /// the files that were made are removed.
    pub fn make(&self, shards: u16) -> Result<(), MakeFault> {
        make_folder(self.files, self.name)?;
        self.refuse(self.count_path()?)?;
        for shard in 0..shards {
            self.refuse_shard(shard)?;
        }
        for shard in 0..shards {
            if let Err(error) = self.make_shard(shard) {
                self.remove(shard);
                return Err(MakeFault::Failed(error));
            }
        }
        Ok(())
    }

    /// Waits until a file is on the disk.
    fn sync(&self, path: &str) -> io::Result<()> {
        fs::open(self.files, path)?.sync_all()
    }

    /// Waits until the names of the files are on the disk, if the file system can say so.
    fn sync_names(&self) -> io::Result<()> {
        match self.sync(self.name) {
            Err(error) if error.kind() == ErrorKind::InvalidInput => Ok(()),
            done => done,
        }
    }

    /// Waits until the files of this shard are on the disk.
    fn sync_shard(&self, shard: u16) -> io::Result<()> {
        self.sync(&self.path(shard, ShardFile::Text)?)?;
        self.sync(&self.path(shard, ShardFile::Table)?)
    }

    /// Waits until the files of this many shards, with these numbers of maps, are on the disk. Of
    /// an empty file that is its name.
    fn sync_shards(&self, shards: u16, counts: &[u32]) -> io::Result<()> {
        for shard in 0..shards {
            if counts.get(usize::from(shard)) != Some(&0) {
                self.sync_shard(shard)?;
            }
        }
        self.sync_names()
    }

    /// Makes the file with the numbers of the maps of the shards.
    fn write_counts(&self, path: &str, text: &[u8]) -> io::Result<()> {
        let mut file = File::create_new(self.files, path)?;
        file.write_all(text)?;
        file.sync_all()?;
        self.sync_names()
    }

    /// Says that the files of this many shards have a full history, with these numbers of maps. So
    /// that it is so after a crash too, the files are on the disk before it is said.
    pub fn complete(&self, shards: u16, counts: &[u32]) -> io::Result<()> {
        let text = counts_text(self.alloc, counts)?;
        let path = self.count_path()?;
        self.sync_shards(shards, counts)?;
        match self.write_counts(&path, &text) {
            Ok(()) => Ok(()),
            Err(error) => {
                let _ = fs::remove_file(self.files, &path);
                Err(error)
            }
        }
    }

    /// Whether the last failure of `add` was an allocation failure.
    pub fn is_allocation_failure(&self) -> bool {
        matches!(self.failure, Some(ErrorKind::OutOfMemory))
    }

    /// Removes the files of this many shards, as far as that is possible.
    pub fn remove(&self, shards: u16) {
        for shard in 0..shards {
            for file in [ShardFile::Text, ShardFile::Table] {
                if let Ok(path) = self.path(shard, file) {
                    let _ = fs::remove_file(self.files, path);
                }
            }
        }
    }

    /// Adds bytes to a file of a shard.
    fn append(&self, shard: u16, file: ShardFile, bytes: &[u8]) -> io::Result<()> {
        let path = self.path(shard, file)?;
        let mut file = OpenOptions::new().append(true).open(self.files, path)?;
        file.write_all(bytes)
    }

    fn append_lines(&self, shard: u16, maps: &[u8], places: &[u8]) -> io::Result<()> {
        self.append(shard, ShardFile::Text, maps)?;
        self.append(shard, ShardFile::Table, places)
    }
}

// Of files it is not known what they hold.
impl<'a, R: Files> Folder for ShardFolder<'a, R> {
    ghost files = { λ _. None };

    ghost broken = { λ s. is_some s.failure };

    fn add(&mut self, shard: u16, maps: &[u8], places: &[u8]) -> Result<(), Failed> {
        match self.append_lines(shard, maps, places) {
            Ok(()) => Ok(()),
            Err(error) => {
                self.failure = Some(error.kind());
                Err(Failed)
            }
        }
    }
}

impl<'a, R: Files> ShardFolder<'a, R> {
    /// The text of a file of a shard, to one byte more than the longest that is judged.
    fn text(&self, alloc: Global, shard: u16, file: ShardFile) -> Result<Vec<u8>, ShardFault> {
        let Ok(path) = self.path(shard, file) else {
            return Err(ShardFault::NoMemory);
        };
        text_of(alloc, NamedFile::new(self.files, &path), file)
    }

    /// The text of a file of a shard, if there is such a file.
    fn text_if_there(
        &self,
        alloc: Global,
        shard: u16,
        file: ShardFile,
    ) -> Result<Option<Vec<u8>>, ShardFault> {
        let Ok(path) = self.path(shard, file) else {
            return Err(ShardFault::NoMemory);
        };
        match fs::open(self.files, &path) {
            Ok(opened) => Ok(Some(text_of(alloc, opened, file)?)),
            Err(error) => match error.kind() {
                ErrorKind::NotFound => Ok(None),
                ErrorKind::OutOfMemory => Err(ShardFault::NoMemory),
                _ => Err(ShardFault::Unread(file)),
            },
        }
    }

    /// The evidence of a shard, or nothing if there is no such file.
    fn evidence(&self, alloc: Global, shard: u16) -> Result<Vec<u8>, ShardFault> {
        match self.text_if_there(alloc, shard, ShardFile::Evidence)? {
            Some(evidence) => Ok(evidence),
            None => Ok(Vec::new(alloc)),
        }
    }

    /// The number of maps that each shard of the folder was given.
    pub fn counts(&self) -> Result<Vec<u32>, CountsFault>
        ensures some { IfOk result (λ counts. 0 < length counts.items) }
        ensures few { IfOk result (λ counts. length counts.items < 2 ^ 16) }
    {
        let path = self.count_path()?;
        let text = read_text(self.alloc, &mut In::new(NamedFile::new(self.files, &path)))?;
        let counts = counts_in(self.alloc, &text)?;
        if counts.is_empty() || counts.len() > usize::from(u16::MAX) {
            return Err(CountsFault::Misfit);
        }
        Ok(counts)
    }
}

/// The text that is read from this file of a shard.
fn text_of<F: Read + Drop>(
    alloc: Global,
    opened: F,
    file: ShardFile,
) -> Result<Vec<u8>, ShardFault> {
    match read_text(alloc, &mut In::new(opened)) {
        Ok(text) => Ok(text),
        Err(ReadFault::NoMemory) => Err(ShardFault::NoMemory),
        Err(ReadFault::Failed) => Err(ShardFault::Unread(file)),
    }
}

// Of files it is not known what they hold.
impl<'a, R: Files> ShardFiles for ShardFolder<'a, R> {
    ghost holds = { λ _ _ _ _ _. ⊤ };

    fn read(&self, alloc: Global, shard: u16) -> Result<ShardFileTexts, ShardFault> {
        Ok(ShardFileTexts {
            text: self.text(alloc, shard, ShardFile::Text)?,
            table: self.text(alloc, shard, ShardFile::Table)?,
            evidence: self.evidence(alloc, shard)?,
        })
    }
}

// Of files it is not known what they hold.
impl<'a, R: Files> StatusFiles for ShardFolder<'a, R> {
    ghost holds = { λ _ _ _. ⊤ };

    fn read_status(&self, alloc: Global, shard: u16) -> Result<Option<Vec<u8>>, ShardFault> {
        self.text_if_there(alloc, shard, ShardFile::Status)
    }
}
