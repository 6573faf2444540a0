//! A reader that keeps why it failed.
use std::io;
use std::io::{Error, Read};

/// A reader, with the last error that it answered.
#[derive(Drop)]
pub struct ErrorReader<R> {
    inner: R,
    failure: Option<Error>,
}

impl<R> ErrorReader<R> {
    /// Wraps a reader, which has answered no error yet.
    pub fn new(inner: R) -> ErrorReader<R> {
        ErrorReader {
            inner,
            failure: None,
        }
    }

    /// The last error that the reader answered, if it has answered one.
    pub fn failure(&self) -> Option<Error> {
        self.failure
    }
}

impl<R: Read> Read for ErrorReader<R> {
    ghost remaining = { λ noting. R.remaining noting.inner };

    fn read(&mut self, buf: &mut [u8]) -> io::Result<usize> {
        let result = self.inner.read(buf);
        if let Err(error) = &result {
            self.failure = Some(*error);
        }
        result
    }
}
