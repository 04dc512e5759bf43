//! The files below a real folder.
use crate::explaining::{Strayed, explain};
use crate::failure::Failure;
use crate::folders::Folders;
use crate::hold::Hold;
use crate::limits::check_size;
use crate::mark::{Mark, UNSETTLED};
use crate::places::{Kind, Standing, is_own, place_of, remove_file, what_stands, write_over};
use crate::spares::Spares;
use crate::unsynced::Unsynced;
use crate::walk::Walk;
use crate::work::{Lock, make_new, place_in_work};
use outside::Path;
use std::alloc::AllocError;
use std::fs;
use std::io::{self, ErrorKind};
use std::rt::Files;

/// How many folders below `store` may stay empty.
const MOST_LEFT: usize = 64;

/// The files below a folder, and the places that changed since the last sync that answered Ok. Each error is the
/// system's, or `OutOfMemory`.
#[derive(Drop)]
pub struct Folder<R: Files + AllocGlobal + Clone + Drop> {
    pub(crate) rt: R,
    pub(crate) root: String,
    /// The hold on the folder.
    pub hold: Hold<R>,
    // By what the last call failed, where it isn't at its own path.
    strayed: Option<Strayed>,
    pub(crate) folders: Folders,
    pub(crate) unsynced: Unsynced,
    mark: Mark,
    spares: Spares,
}

impl<R: Files + AllocGlobal + Clone + Drop> Folder<R>
where
    R::File: Lock,
{
    /// The files below this folder, which is there. Or out of memory.
    pub fn new(rt: R, root: &str) -> Result<Folder<R>, AllocError> {
        let alloc = rt.alloc();
        Ok(Folder {
            root: String::from_str(alloc, root)?,
            hold: Hold::new(),
            strayed: None,
            folders: Folders::new(alloc),
            unsynced: Unsynced::new(alloc),
            mark: Mark::new(),
            spares: Spares::new(alloc),
            rt,
        })
    }

    /// Why a call failed, in words: what is in the way, where the error is of these adapters, and else the system's words. Or out of memory.
    pub fn explain(&self, failure: &Failure) -> Result<String, AllocError> {
        if self.hold.is_locked_out() {
            return self.hold.explain(self.rt.alloc());
        }
        explain(&self.rt, self.root.as_str(), failure, self.strayed.as_ref())
    }

    /// Takes the lock on the folder, if it isn't taken. `WouldBlock` where another program holds it.
    pub fn take_hold(&mut self) -> io::Result<()> {
        self.hold.take(&self.rt, self.root.as_str())
    }

    // The call failed by this one, at this place.
    pub(crate) fn stray(&mut self, call: &'static str, place: Option<String>) {
        if let Some(place) = place {
            self.strayed = Some(Strayed { call, place });
        }
    }

    // Begins a call: takes the lock, if it isn't taken. An error after a failed sync of what can't be written anew.
    pub(crate) fn begin(&mut self) -> io::Result<()> {
        if self.unsynced.is_broken() {
            return Err(io::Error::from(ErrorKind::Other));
        }
        self.strayed = None;
        let answer = self.take_hold();
        if answer.is_err() {
            let place = place_in_work(self.rt.alloc(), self.root.as_str(), "lock").ok();
            self.stray("lock", place);
        }
        answer
    }

    // A change is to begin: the mark is there from now on.
    fn begin_change(&mut self) -> io::Result<()> {
        self.mark.set(&self.rt, self.root.as_str())
    }

    // Where it was the mark by which the call failed, its place is kept.
    fn stray_mark<T>(&mut self, answer: &io::Result<T>) {
        if answer.is_err() {
            let place = place_in_work(self.rt.alloc(), self.root.as_str(), UNSETTLED).ok();
            self.stray("write", place);
        }
    }

    // The place of the first names of the path.
    pub(crate) fn first_names(&self, kind: Kind, path: &Path, count: usize) -> io::Result<String> {
        let place = place_of(self.rt.alloc(), self.root.as_str(), kind, path, count)?;
        Ok(place)
    }

    // The place of the path, which is none of the adapters' own.
    pub(crate) fn place(&self, kind: Kind, path: &Path) -> io::Result<String> {
        match path.names().first() {
            Some(name) if is_own(name.as_slice()) => {
                Err(io::Error::from(ErrorKind::InvalidFilename))
            }
            _ => self.first_names(kind, path, path.names().len()),
        }
    }

    // The folder that the path lies in.
    pub(crate) fn folder(&self, kind: Kind, path: &Path) -> io::Result<String> {
        self.first_names(kind, path, path.names().len().saturating_sub(1))
    }

    // Whether the folders that the path lies in are there, none of them by a symbolic link.
    pub(crate) fn has_folders(&mut self, kind: Kind, path: &Path) -> io::Result<bool> {
        let folder = self.folder(kind, path)?;
        if self.folders.is_known(&folder) {
            return Ok(true);
        }
        for count in 0..path.names().len() {
            let folder = self.first_names(kind, path, count)?;
            if !self.folders.stands(&self.rt, folder)? {
                return Ok(false);
            }
        }
        Ok(true)
    }

    // The place of the node of this kind at the path, if there is one.
    fn node(&mut self, kind: Kind, path: &Path) -> io::Result<Option<String>> {
        let place = self.place(kind, path)?;
        if self.has_folders(kind, path)?
            && what_stands(&self.rt, place.as_str())? == Standing::File
        {
            Ok(Some(place))
        } else {
            Ok(None)
        }
    }

    // The bytes of the file at the place.
    fn bytes(&self, place: &String) -> io::Result<Vec<u8>> {
        match self.unsynced.lost(place) {
            Some(bytes) => Ok(bytes.to_vec(self.rt.alloc())?),
            None => fs::read(&self.rt, place.as_str()),
        }
    }

    /// The bytes of the file at the path, or None where no file is there.
    pub fn file(&mut self, path: &Path) -> io::Result<Option<Vec<u8>>> {
        self.begin()?;
        match self.node(Kind::File, path)? {
            Some(place) => Ok(Some(self.bytes(&place)?)),
            None => Ok(None),
        }
    }

    /// The text of the link at the path, or None where no link is there. A file at the path hides the link, so that
    /// the change from one to the other is at one moment.
    pub fn link(&mut self, path: &Path) -> io::Result<Option<Vec<u8>>> {
        self.begin()?;
        match (self.node(Kind::File, path)?, self.node(Kind::Link, path)?) {
            (None, Some(place)) => Ok(Some(self.bytes(&place)?)),
            _ => Ok(None),
        }
    }

    // The folder that the path lies in is to be synced.
    fn note_folder(&mut self, kind: Kind, path: &Path) -> io::Result<()> {
        let folder = self.folder(kind, path)?;
        self.unsynced.note(folder)?;
        Ok(())
    }

    // Makes the folders that the path lies in, where they are missing. The folder above such a one is to be synced.
    fn make_folders(&mut self, kind: Kind, path: &Path) -> io::Result<()> {
        let mut above = String::from_str(self.rt.alloc(), self.root.as_str())?;
        for count in 0..path.names().len() {
            let folder = self.first_names(kind, path, count)?;
            let copy = String::from_str(self.rt.alloc(), folder.as_str())?;
            if !self.folders.stands(&self.rt, copy)? {
                self.unsynced.note(above)?;
                self.folders.forget(&folder);
                fs::create_dir(&self.rt, folder.as_str())?;
            }
            above = folder;
        }
        Ok(())
    }

    // Makes the path one at which a file may be made, and answers whether one is there. Folders are no nodes: one
    // that is there is taken away with those below it, unless there is more in them.
    fn make_way(&mut self, kind: Kind, path: &Path) -> io::Result<bool> {
        let place = self.place(kind, path)?;
        self.make_folders(kind, path)?;
        match what_stands(&self.rt, place.as_str())? {
            Standing::File => Ok(true),
            Standing::Folder if !path.names().is_empty() => {
                self.note_folder(kind, path)?;
                self.folders.remove_all(&self.rt, place)?;
                Ok(false)
            }
            Standing::Nothing => Ok(false),
            _ => Err(io::Error::from(ErrorKind::IsADirectory)),
        }
    }

    // A file in `.work` with these bytes, on the disk: for a file of the store it may be a spare. Answers its place.
    fn make(&mut self, kind: Kind, path: &Path, bytes: &[u8]) -> io::Result<String> {
        check_size(bytes.len())?;
        if kind.is_stored(path) {
            return self.spares.make(&self.rt, self.root.as_str(), bytes);
        }
        let (place, _) = make_new(&self.rt, self.root.as_str(), bytes)?;
        Ok(place)
    }

    /// Makes the path a node of this kind, by a rename of a new file that is on the disk.
    pub fn put(&mut self, kind: Kind, path: &Path, bytes: &[u8]) -> io::Result<()> {
        self.begin()?;
        let place = self.place(kind, path)?;
        self.begin_change()?;
        let new = self.make(kind, path, bytes)?;
        self.make_way(kind, path)?;
        // Noted first, so that a failure in between is synced too.
        self.note_folder(kind, path)?;
        fs::rename(&self.rt, new.as_str(), place.as_str())?;
        self.unsynced.forget(&place);
        self.give_way(kind, path)
    }

    // Takes away the node of the other kind, if there is one, once all that is there is on the disk.
    fn give_way(&mut self, kind: Kind, path: &Path) -> io::Result<()> {
        if self.node(kind.other(), path)?.is_some() {
            self.put_down()?;
            self.take(kind.other(), path)?;
        }
        Ok(())
    }

    // Removes the file of the node at the path: one of the store may be kept as a spare.
    fn remove_node(&mut self, kind: Kind, path: &Path, place: &str) -> io::Result<()> {
        if kind.is_stored(path) {
            return self.spares.remove(&self.rt, self.root.as_str(), place);
        }
        remove_file(&self.rt, place)
    }

    // Takes away the node of this kind, if there is one.
    fn take(&mut self, kind: Kind, path: &Path) -> io::Result<()> {
        if let Some(place) = self.node(kind, path)? {
            self.begin_change()?;
            self.note_folder(kind, path)?;
            self.remove_node(kind, path, place.as_str())?;
            self.unsynced.forget(&place);
            self.leave(kind, path)?;
        }
        Ok(())
    }

    /// Takes away what is at the path: a link that a file hides first.
    pub fn remove(&mut self, path: &Path) -> io::Result<()> {
        self.begin()?;
        self.take(Kind::Link, path)?;
        self.take(Kind::File, path)
    }

    // Writes the file at the place. Its bytes aren't known from then on.
    fn write_file(&mut self, place: &String, bytes: &[u8]) -> io::Result<()> {
        check_size(bytes.len())?;
        let copy = String::from_str(self.rt.alloc(), place.as_str())?;
        self.unsynced.begin(copy)?;
        write_over(&self.rt, place.as_str(), bytes)?;
        Ok(())
    }

    // Writes the file at the path, and keeps its bytes.
    fn write_kept(&mut self, path: &Path, bytes: &[u8]) -> io::Result<()> {
        let place = self.place(Kind::File, path)?;
        let kept = bytes.to_vec(self.rt.alloc())?;
        self.write_file(&place, bytes)?;
        self.unsynced.keep(place, kept)?;
        Ok(())
    }

    // Where a new file of the store is to be, a spare may be laid, with any bytes.
    fn lay_spare(&mut self, path: &Path) -> io::Result<()> {
        let place = self.place(Kind::File, path)?;
        if Kind::File.is_stored(path) {
            self.spares
                .lay(&self.rt, self.root.as_str(), place.as_str())?;
        }
        Ok(())
    }

    /// Makes the path a file with these bytes, in place.
    pub fn write(&mut self, path: &Path, bytes: &[u8]) -> io::Result<()> {
        self.begin()?;
        self.begin_change()?;
        if !self.make_way(Kind::File, path)? {
            self.note_folder(Kind::File, path)?;
            self.lay_spare(path)?;
        }
        self.write_kept(path, bytes)?;
        self.take(Kind::Link, path)
    }

    // Notes all that earlier programs may have left: the files, and the folders that they lie in.
    fn note_all(&mut self) -> io::Result<()> {
        let mut walk = Walk::new(self.rt.alloc());
        if let Err(e) = walk.go_kept(&self.rt, self.root.as_str()) {
            self.stray("list", walk.failed.take());
            return Err(e);
        }
        self.unsynced.note_each(walk.folders)?;
        self.unsynced.note_each(walk.files)?;
        Ok(())
    }

    // What earlier programs may have left is from now on among what is to be synced.
    fn settle(&mut self) -> io::Result<()> {
        let answer = self.mark.is_left(&self.rt, self.root.as_str());
        self.stray_mark(&answer);
        if answer? {
            self.note_all()?;
            self.mark.take_over();
        }
        Ok(())
    }

    // Flushes all that is to be synced. The mark goes after that.
    fn put_down(&mut self) -> io::Result<()> {
        self.settle()?;
        self.prune_left(MOST_LEFT)?;
        if let Err(e) = self.unsynced.sync(&self.rt) {
            let place = self.unsynced.failed.take();
            self.stray("fsync", place);
            return Err(e);
        }
        self.spares.settle();
        let answer = self.mark.clear(&self.rt, self.root.as_str());
        self.stray_mark(&answer);
        answer
    }

    /// Flushes each place that changed since the last sync that answered Ok, each once; at first also what earlier
    /// programs left.
    pub fn sync(&mut self) -> io::Result<()> {
        self.begin()?;
        self.put_down()
    }
}
