//! Books of facts: their databases, what they hold, and the desk that is replayed from one.

pub(crate) mod batches;
mod desks;
mod opened;
mod rows;

use crate::books::batches::add_fitting;
use crate::books::opened::Opened;
use gi_calls::{Answer, Fault, Subject, Words};
use gi_store::StoreFault;
use sqlite::{Connection, File, FileStore, MemStore};
use std::alloc::Global;
use std::mem::ManuallyDrop;
use std::{fs, io};

/// The database that the calls are made on.
enum Place {
    Nowhere,
    Memory(Opened<MemStore>),
    File(Opened<FileStore<File>>),
}

/// The calls of the subject `books`.
pub struct Books {
    place: Place,
}

/// What a call on files answers.
fn done(answer: io::Result<()>) -> &'static str {
    match answer {
        Ok(()) => "ok",
        Err(_) => "failed",
    }
}

/// Makes an empty folder; one of that name is removed.
fn make_folder(rt: &HostRuntime, name: &str, text: &mut Answer) {
    let _ = fs::remove_dir_all(rt, name);
    text.add(done(fs::create_dir(rt, name)));
}

/// Removes a folder with its files, or makes an empty one.
fn on_folder(rt: &HostRuntime, word: &str, name: &str, text: &mut Answer) {
    match word {
        "folder" => make_folder(rt, name, text),
        _ => text.add(done(fs::remove_dir_all(rt, name))),
    }
}

impl Books {
    pub fn new() -> Books {
        Books {
            place: Place::Nowhere,
        }
    }

    /// Puts a database in the place of the one before, whose desk is kept until the program ends, as
    /// `answered` keeps its subject.
    fn put(&mut self, place: Place) {
        let former = std::mem::replace(&mut self.place, place);
        let _former = unsafe { ManuallyDrop::new_unchecked(former) };
    }

    /// Lets go of the database.
    fn close(&mut self, alloc: Global, text: &mut Answer) -> Result<(), Fault> {
        self.on_place(alloc, "", text)?;
        self.put(Place::Nowhere);
        Ok(())
    }

    /// Takes a new database in memory.
    fn take_memory(&mut self, rt: &HostRuntime, text: &mut Answer) -> Result<bool, Fault> {
        let connection = Connection::open_in_memory(rt.alloc())?;
        self.put(Place::Memory(Opened {
            connection: Some(connection),
            book: None,
            desk: None,
        }));
        text.add("ok");
        Ok(true)
    }

    /// Takes the database in a file.
    fn take_file(&mut self, rt: &HostRuntime, name: &str, text: &mut Answer) -> bool {
        match Connection::open(rt, name) {
            Ok(connection) => {
                self.put(Place::File(Opened {
                    connection: Some(connection),
                    book: None,
                    desk: None,
                }));
                text.add("ok");
            }
            Err(error) => {
                text.show(StoreFault::from(error));
            }
        }
        true
    }

    /// Makes a call on the database that was taken. `false` where it is none.
    fn on_place(&mut self, alloc: Global, call: &str, text: &mut Answer) -> Result<bool, Fault> {
        match &mut self.place {
            Place::Nowhere => Ok(false),
            Place::Memory(opened) => opened.answer(alloc, call, text),
            Place::File(opened) => opened.answer(alloc, call, text),
        }
    }
}

impl Subject for Books {
    fn answer(&mut self, rt: &HostRuntime, call: &str, text: &mut Answer) -> Result<bool, Fault> {
        let mut words = Words::of(call);
        let word = words.next();
        match word {
            "open_in_memory" => {
                self.close(rt.alloc(), text)?;
                self.take_memory(rt, text)
            }
            "open_file" => {
                self.close(rt.alloc(), text)?;
                Ok(self.take_file(rt, words.rest(), text))
            }
            "fitting" => add_fitting(rt.alloc(), words.rest(), text),
            "folder" | "remove_folder" => {
                self.close(rt.alloc(), text)?;
                on_folder(rt, word, words.rest(), text);
                Ok(true)
            }
            _ => self.on_place(rt.alloc(), call, text),
        }
    }
}
