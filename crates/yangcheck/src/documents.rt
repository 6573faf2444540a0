//! The sources of documents, and their files, as the system has them. No clause says what is in
//! them: that is tested only.
use std::alloc::Global;
use std::cell::Cell;
use std::fs::File;
use std::io;
use std::io::{Error, ErrorKind, Read};
use std::rt::Files;
use yv_base_streams::{Counted, InputFault, read_up_to};
use yv_batch::{Content, Opener};

/// How many bytes of a document are read: one more than it may have.
const MOST_BYTES: usize = 16_777_217;

/// Standard input, or a file.
#[derive(Drop)]
enum Stream<I, F> {
    Input(I),
    File(F),
}

impl<I: Read, F: Read> Read for Stream<I, F> {
    fn read(&mut self, buf: &mut [u8]) -> io::Result<usize> {
        match self {
            Stream::Input(input) => input.read(buf),
            Stream::File(file) => file.read(buf),
        }
    }
}

/// A source that was opened. It notes the error of its last read, which outlives it.
#[derive(Drop)]
pub(crate) struct SourceReader<'a, I, F> {
    stream: Stream<I, F>,
    failure: &'a Cell<Option<Error>>,
}

impl<I: Read, F: Read> Read for SourceReader<'_, I, F> {
    fn read(&mut self, buf: &mut [u8]) -> io::Result<usize> {
        let result = self.stream.read(buf);
        match &result {
            Ok(_) => self.failure.set(None),
            Err(error) => self.failure.set(Some(*error)),
        }
        result
    }
}

/// The system as a store of sources and files. It notes the system's last error.
#[derive(Drop)]
pub(crate) struct SystemStore<'a, R> {
    rt: &'a R,
    failure: &'a Cell<Option<Error>>,
}

// Why a file can't be opened, by the system's error.
fn open_fault(error: &Error) -> InputFault {
    if error.kind() == ErrorKind::OutOfMemory {
        InputFault::NoMemory
    } else {
        InputFault::Read
    }
}

// What is had of a document that can't be read.
fn content_of(fault: InputFault) -> Content {
    match fault {
        InputFault::Read => Content::Unread,
        InputFault::NoMemory => Content::NoRoom,
    }
}

// The whole of a reader as a document.
fn read_whole<R: Read + Drop>(alloc: Global, reader: R) -> Content {
    match read_up_to(alloc, MOST_BYTES, &mut Counted::new(reader)) {
        Ok(bytes) => Content::Read(bytes),
        Err(fault) => content_of(fault),
    }
}

impl<'a, R: Files + io::Input> SystemStore<'a, R> {
    /// The store, which notes errors here.
    pub(crate) fn new(rt: &'a R, failure: &'a Cell<Option<Error>>) -> SystemStore<'a, R> {
        SystemStore { rt, failure }
    }

    // Opens the file of this name.
    fn open_file(&self, name: &str) -> Result<SourceReader<'a, R::Reader, R::File>, InputFault> {
        match File::open(self.rt, name) {
            Ok(file) => Ok(self.reader(Stream::File(file))),
            Err(error) => {
                self.failure.set(Some(error));
                Err(open_fault(&error))
            }
        }
    }

    // The reader of a stream.
    fn reader(&self, stream: Stream<R::Reader, R::File>) -> SourceReader<'a, R::Reader, R::File> {
        SourceReader {
            stream,
            failure: self.failure,
        }
    }
}

impl<'a, R: Files + io::Input> Opener<SourceReader<'a, R::Reader, R::File>> for SystemStore<'a, R> {
    ghost use Rattle.std.specs.Prelude.{None};

    ghost contents = { λ _. None };

    fn open(
        &mut self,
        _alloc: Global,
        name: &str,
    ) -> Result<SourceReader<'a, R::Reader, R::File>, InputFault> {
        if name == "-" {
            Ok(self.reader(Stream::Input(self.rt.reader())))
        } else {
            self.open_file(name)
        }
    }
}

impl<R: Files + io::Input> yv_batch::Files for SystemStore<'_, R> {
    ghost use Rattle.std.specs.Prelude.{None};

    ghost files = { λ _. None };

    fn fetch(&mut self, alloc: Global, name: &str) -> Content {
        match self.open_file(name) {
            Ok(reader) => read_whole(alloc, reader),
            Err(fault) => content_of(fault),
        }
    }
}
