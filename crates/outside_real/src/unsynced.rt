//! What is still to be put on the disk.
use crate::limits::check_size;
use crate::places::open_place;
use std::alloc::{AllocError, Global};
use std::collections::BTreeMap;
use std::fs::{self, OpenFile};
use std::io::{self, Write};
use std::rt::Files;

// What is known of a place that is to be synced.
#[derive(Drop)]
enum Entry {
    // A folder, or a file whose bytes aren't kept.
    Place,
    // A file that was written in place with these bytes.
    Written(Vec<u8>),
    // The same, where a sync has failed: the system may have let go what it couldn't flush, and tells so once.
    Lost(Vec<u8>),
}

/// The places that changed since they were put on the disk, each once.
#[derive(Drop)]
pub struct Unsynced {
    entries: BTreeMap<String, Entry>,
    broken: bool,
    /// The place that the last failing sync couldn't flush.
    pub failed: Option<String>,
}

// Flushes what is at the place, and answers what the system said. An error where it couldn't be opened, and nothing
// was asked of it then.
fn put_down(files: &impl Files, place: &str, entry: &Entry) -> io::Result<io::Result<()>> {
    if let Entry::Lost(bytes) = entry {
        check_size(bytes.len())?;
        fs::create(files, place)?.write_all(bytes)?;
    }
    match open_place(files, place)? {
        Some(file) => Ok(file.sync_all()),
        None => Ok(Ok(())),
    }
}

impl Unsynced {
    /// Nothing is to be synced.
    pub fn new(alloc: Global) -> Unsynced {
        Unsynced {
            entries: BTreeMap::new(alloc),
            broken: false,
            failed: None,
        }
    }

    /// Whether the system has let go what can't be written anew. Nothing is known of the disk then.
    pub fn is_broken(&self) -> bool {
        self.broken
    }

    /// The place is to be synced. Answers whether it wasn't yet.
    pub fn note(&mut self, place: String) -> Result<bool, AllocError> {
        if self.entries.contains_key(&place) {
            return Ok(false);
        }
        self.entries.insert(place, Entry::Place)?;
        Ok(true)
    }

    /// Each of the places is to be synced.
    pub fn note_each(&mut self, places: Vec<String>) -> Result<(), AllocError> {
        for place in places {
            self.note(place)?;
        }
        Ok(())
    }

    /// The file at the place is written now. Its bytes aren't known until `keep`.
    pub fn begin(&mut self, place: String) -> Result<(), AllocError> {
        self.entries.insert(place, Entry::Place)?;
        Ok(())
    }

    /// The file at the place was written with these bytes.
    pub fn keep(&mut self, place: String, bytes: Vec<u8>) -> Result<(), AllocError> {
        self.entries.insert(place, Entry::Written(bytes))?;
        Ok(())
    }

    /// The place needs no sync.
    pub fn forget(&mut self, place: &String) {
        self.entries.remove(place);
    }

    /// The bytes of the file at the place, where the system may show others.
    pub fn lost(&self, place: &String) -> Option<&Vec<u8>> {
        match self.entries.get(place) {
            Some(Entry::Lost(bytes)) => Some(bytes),
            _ => None,
        }
    }

    // The place is still to be synced.
    fn put_back(&mut self, place: String, entry: Entry) {
        if self.entries.insert(place, entry).is_err() {
            self.broken = true;
        }
    }

    // The system may have let go what is at the place. A file whose bytes are kept is written anew at the next sync.
    fn lose(&mut self, place: String, entry: Entry) {
        match entry {
            Entry::Place => self.broken = true,
            Entry::Written(bytes) | Entry::Lost(bytes) => self.put_back(place, Entry::Lost(bytes)),
        }
    }

    // Flushes the place. At an error it is still to be synced, or it is broken.
    fn sync_place(&mut self, files: &impl Files, place: String, entry: Entry) -> io::Result<()> {
        match put_down(files, place.as_str(), &entry) {
            Ok(Ok(())) => Ok(()),
            Ok(Err(e)) => {
                self.failed = place.clone().ok();
                self.lose(place, entry);
                Err(e)
            }
            Err(e) => {
                self.failed = place.clone().ok();
                self.put_back(place, entry);
                Err(e)
            }
        }
    }

    /// Flushes each place. An error is the first one of the system; what isn't on the disk then is still to be synced,
    /// or it is broken.
    pub fn sync(&mut self, files: &impl Files) -> io::Result<()> {
        for _ in 0..u64::MAX {
            let Some((place, entry)) = self.entries.pop_first() else {
                break;
            };
            self.sync_place(files, place, entry)?;
        }
        Ok(())
    }
}
