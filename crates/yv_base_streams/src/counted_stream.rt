//! A reader or a writer that counts what goes wrong in its calls.
ghost use Rattle.std.specs.{Prelude.{◌≡◌, ◌≢◌, ◌<◌, true, length, OnOk, IfOk, IfErr}, IoError.{error_kind}, Io.{ReadsAtMost, WritesAtMost}, Io.KnownBytes.{Keeps, ReadConsumes, WriteAppends}};
ghost use Rattle.yv_base_streams.specs.Stream.{stream_inner, stream_faults, stream_interrupts, has_failed, CountsNothing, CountsFault, CountsInterrupt, GivesUp};

use std::io;
use std::io::{Error, ErrorKind, Read, Write};

/// How many interruptions of one stream are borne.
const PATIENCE: u64 = 1_000;

/// A stream, a reader or a writer, whose failures are counted: it has the errors that its calls
/// have answered. Each call is one call of what it wraps, and passes on its answer. Once the stream
/// has failed, what it wraps is no longer called: a further call answers an error, and is one more
/// fault.
#[derive(Drop)]
pub struct Counted<T> {
    inner: T,
    faults: u64,
    interrupts: u64,
}

impl<T> Counted<T> {
    /// Wraps a reader or a writer. Nothing has gone wrong yet.
    pub fn new(inner: T) -> Counted<T>
        // This is what is wrapped.
        ensures inner { stream_inner result ≡ inner }
        // No faults are counted.
        ensures faults { stream_faults result ≡ 0 }
        // No interruptions are counted.
        ensures interrupts { stream_interrupts result ≡ 0 }
    {
        Counted {
            inner,
            faults: 0,
            interrupts: 0,
        }
    }

    /// The errors other than `Interrupted`, and the writes that took none of the bytes that they
    /// were given, that were answered so far: what a caller may report of a stream that was given
    /// up.
    pub fn faults(&self) -> u64
        ensures { result ≡ stream_faults self.now }
    {
        self.faults
    }

    /// The errors `Interrupted` that were answered so far, for the same caller.
    pub fn interrupts(&self) -> u64
        ensures { result ≡ stream_interrupts self.now }
    {
        self.interrupts
    }

    /// Whether the stream is to be given up: at a fault, or past 1,000 interruptions.
    pub fn has_failed(&self) -> bool
        ensures { result ≡ has_failed self.now }
    {
        self.faults > 0 || self.interrupts > PATIENCE
    }

    /// What was wrapped, for a caller that goes on with it after a run.
    pub fn into_inner(self) -> T
        ensures { result ≡ stream_inner self }
    {
        self.inner
    }

    // The answer to a call of a stream that has failed, which is a fault of the caller.
    fn refuse(&mut self) -> Error
        ensures inner { stream_inner self.new ≡ stream_inner self.old }
        ensures counts { CountsFault self.old self.new }
        ensures kind { error_kind result ≢ ErrorKind.Interrupted }
    {
        self.count_fault();
        Error::from(ErrorKind::Other)
    }

    fn count_fault(&mut self)
        ensures inner { stream_inner self.new ≡ stream_inner self.old }
        ensures counts { CountsFault self.old self.new }
    {
        self.faults = self.faults.saturating_add(1);
    }

    fn count_error(&mut self, error: &Error)
        ensures inner { stream_inner self.new ≡ stream_inner self.old }
        ensures interrupts { error_kind error.now ≡ ErrorKind.Interrupted
            → CountsInterrupt self.old self.new }
        ensures fails { error_kind error.now ≢ ErrorKind.Interrupted
            → CountsFault self.old self.new }
    {
        if error.kind() == ErrorKind::Interrupted {
            self.interrupts = self.interrupts.saturating_add(1);
        } else {
            self.faults = self.faults.saturating_add(1);
        }
    }
}

impl<R: Read> Read for Counted<R> {
    ghost remaining = { λ c. R.remaining (stream_inner c) };

    /// One call of the reader that is wrapped, unless the stream has failed.
    fn read(&mut self, buf: &mut [u8]) -> io::Result<usize>
        // It gives at most as many bytes as there is room for.
        ensures bound { ReadsAtMost result buf.new }
        // What a call of what is wrapped takes or gives, and what it adds to the counts; that it is
        // only one call is tested.
        ensures bytes { ReadConsumes (R.remaining (stream_inner self.old))
            (R.remaining (stream_inner self.new)) result buf.new }
        // A success counts nothing.
        ensures gives { OnOk result (CountsNothing self.old self.new) }
        // An interruption is counted as one.
        ensures interrupts { IfErr result (λ e. error_kind e ≡ ErrorKind.Interrupted
            → CountsInterrupt self.old self.new) }
        // Any other error is counted as a fault.
        ensures fails { IfErr result (λ e. error_kind e ≢ ErrorKind.Interrupted
            → CountsFault self.old self.new) }
        // If the stream has failed, what is wrapped isn't called, and one more fault is counted.
        ensures given_up { GivesUp self.old self.new }
    {
        if self.has_failed() {
            return Err(self.refuse());
        }
        let result = self.inner.read(buf);
        if let Err(error) = &result {
            self.count_error(error);
        }
        result
    }
}

impl<W: Write> Write for Counted<W> {
    ghost contents = { λ c. W.contents (stream_inner c) };

    /// One call of the writer that is wrapped, unless the stream has failed.
    fn write(&mut self, buf: &[u8]) -> io::Result<usize>
        // It takes at most these bytes.
        ensures bound { WritesAtMost result buf.now }
        // What a call of what is wrapped takes or gives, and what it adds to the counts; that it is
        // only one call is tested.
        ensures bytes { WriteAppends (W.contents (stream_inner self.old))
            (W.contents (stream_inner self.new)) result buf.now }
        // A write that takes bytes counts nothing.
        ensures takes { IfOk result (λ n. 0 < n → CountsNothing self.old self.new) }
        // One that takes none of the bytes that it was given is a fault.
        ensures none_taken { IfOk result (λ n. n ≡ 0 → 0 < length buf.now
            → CountsFault self.old self.new) }
        // One that was given none counts nothing.
        ensures none_given { OnOk result (length buf.now ≡ 0 → CountsNothing self.old self.new) }
        // An interruption is counted as one.
        ensures interrupts { IfErr result (λ e. error_kind e ≡ ErrorKind.Interrupted
            → CountsInterrupt self.old self.new) }
        // Any other error is counted as a fault.
        ensures fails { IfErr result (λ e. error_kind e ≢ ErrorKind.Interrupted
            → CountsFault self.old self.new) }
        // If the stream has failed, what is wrapped isn't called, and one more fault is counted.
        ensures given_up { GivesUp self.old self.new }
    {
        if self.has_failed() {
            return Err(self.refuse());
        }
        let result = self.inner.write(buf);
        match &result {
            Ok(0) if !buf.is_empty() => self.count_fault(),
            Ok(_) => {}
            Err(error) => self.count_error(error),
        }
        result
    }

    /// One flush of the writer that is wrapped, unless the stream has failed.
    fn flush(&mut self) -> io::Result<()>
        // What a call of what is wrapped takes or gives, and what it adds to the counts; that it is
        // only one call is tested.
        ensures bytes { Keeps (W.contents (stream_inner self.old))
            (W.contents (stream_inner self.new)) }
        // A success counts nothing.
        ensures ends { OnOk result (CountsNothing self.old self.new) }
        // An interruption is counted as one.
        ensures interrupts { IfErr result (λ e. error_kind e ≡ ErrorKind.Interrupted
            → CountsInterrupt self.old self.new) }
        // Any other error is counted as a fault.
        ensures fails { IfErr result (λ e. error_kind e ≢ ErrorKind.Interrupted
            → CountsFault self.old self.new) }
        // If the stream has failed, what is wrapped isn't called, and one more fault is counted.
        ensures given_up { GivesUp self.old self.new }
    {
        if self.has_failed() {
            return Err(self.refuse());
        }
        let result = self.inner.flush();
        if let Err(error) = &result {
            self.count_error(error);
        }
        result
    }
}
