//! Sources and sinks of bytes, and their counts of failures.
ghost use Rattle.std.specs.Prelude.{None};
ghost use Rattle.std.specs.Io.{ReadsAtMost, WritesAtMost};
ghost use Rattle.std.specs.Io.KnownBytes.{ReadConsumes, WriteAppends};
ghost use Rattle.wasm_gen_program.specs.Device.{CountsRead, CountsWrite, SinkView, SourceView};

use std::io;
use std::io::{Read, Write};

/// A reader that may state how often it was asked and how often it failed.
pub trait Source {
    // The bytes that are left, and how many reads there were, and what came of them.
    ghost seen: { Self → SourceView };

    /// Reads some bytes into the front of the buffer, and returns how many: 0 only at the
    /// end, or where the buffer is empty.
    fn read(&mut self, buffer: &mut [u8]) -> io::Result<usize>
        ensures bound { ReadsAtMost result buffer.new }
        ensures bytes { ReadConsumes (seen self.old).remaining (seen self.new).remaining result buffer.new }
        ensures told { CountsRead (seen self.old).reads (seen self.new).reads result };
}

/// A writer that may state how often it failed.
pub trait Sink {
    // The bytes that are held, and how many writes failed or took no byte.
    ghost seen: { Self → SinkView };

    /// Writes bytes from the front of the buffer, and returns how many.
    fn write(&mut self, buffer: &[u8]) -> io::Result<usize>
        ensures bound { WritesAtMost result buffer.now }
        ensures bytes { WriteAppends (seen self.old).contents (seen self.new).contents result buffer.now }
        ensures told { CountsWrite (seen self.old).faults (seen self.new).faults result };
}

/// Each reader of std is a source, which counts nothing.
impl<R: Read> Source for R {
    ghost seen = { λ s. record { remaining = R.Read.remaining s; reads = None } };

    fn read(&mut self, buffer: &mut [u8]) -> io::Result<usize> {
        Read::read(self, buffer)
    }
}

/// Each writer of std is a sink, which counts nothing.
impl<W: Write> Sink for W {
    ghost seen = { λ s. record { contents = W.Write.contents s; faults = None } };

    fn write(&mut self, buffer: &[u8]) -> io::Result<usize> {
        Write::write(self, buffer)
    }
}
