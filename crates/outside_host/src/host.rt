//! The host's files and its two output streams: the edge that is trusted. They tell no content, and
//! count their failures from 0. Each error of the host raises the count, and so does a name that is
//! not UTF-8.
ghost use Rattle.std.specs.Prelude.{◌≡◌, ◌<◌, ◌+◌, ◌-◌, None, is_some, false};

use ann_base::{Failed, Shelf, Sink};
use std::fs::File;
use std::io::{Read, Stderr, Stdout, Write};
use std::rt::Files;

/// The files of the host, by their paths.
#[derive(Drop)]
pub struct HostShelf<R: Files + Drop> {
    host: R,
    file: Option<R::File>,
    faults: u64,
}

impl<R: Files + Drop> HostShelf<R> {
    /// The files that this runtime reaches; none is picked.
    pub fn new(host: R) -> HostShelf<R>
        ensures none_failed { ⟦<HostShelf<R> as Shelf>⟧.faults result ≡ 0 }
        ensures none_picked { ⟦<HostShelf<R> as Shelf>⟧.picked result ≡ false }
    {
        HostShelf {
            host,
            file: None,
            faults: 0,
        }
    }
}

impl<R: Files + Drop> Shelf for HostShelf<R> {
    ghost files = { λ _. None };

    ghost at = { λ _. None };

    ghost picked = { λ shelf. is_some shelf.file };

    ghost faults = { λ shelf. shelf.faults };

    fn pick(&mut self, name: &[u8]) -> Result<(), Failed> {
        self.file = None;
        let Ok(path) = str::from_utf8(name) else {
            self.faults = self.faults.saturating_add(1);
            return Err(Failed);
        };
        match File::open(&self.host, path) {
            Ok(file) => {
                self.file = Some(file);
                Ok(())
            }
            Err(_) => {
                self.faults = self.faults.saturating_add(1);
                Err(Failed)
            }
        }
    }

    fn read(&mut self, piece: &mut [u8]) -> Result<usize, Failed> {
        let Some(file) = &mut self.file else {
            return Ok(0);
        };
        match file.read(piece) {
            Ok(count) => Ok(count),
            Err(_) => {
                self.faults = self.faults.saturating_add(1);
                Err(Failed)
            }
        }
    }
}

/// One of the host's output streams.
#[derive(Drop)]
enum Stream {
    Output(Stdout),
    Errors(Stderr),
}

/// Standard output or standard error.
#[derive(Drop)]
pub struct HostSink {
    stream: Stream,
    faults: u64,
}

impl HostSink {
    /// Standard output.
    pub fn output(stream: Stdout) -> HostSink
        ensures { ⟦<HostSink as Sink>⟧.faults result ≡ 0 }
    {
        HostSink {
            stream: Stream::Output(stream),
            faults: 0,
        }
    }

    /// Standard error.
    pub fn errors(stream: Stderr) -> HostSink
        ensures { ⟦<HostSink as Sink>⟧.faults result ≡ 0 }
    {
        HostSink {
            stream: Stream::Errors(stream),
            faults: 0,
        }
    }
}

impl Sink for HostSink {
    ghost held = { λ _. None };

    ghost faults = { λ sink. sink.faults };

    fn write(&mut self, piece: &[u8]) -> Result<usize, Failed> {
        let written = match &mut self.stream {
            Stream::Output(stream) => stream.write(piece),
            Stream::Errors(stream) => stream.write(piece),
        };
        match written {
            Ok(count) if count > 0 || piece.is_empty() => Ok(count),
            _ => {
                self.faults = self.faults.saturating_add(1);
                Err(Failed)
            }
        }
    }
}
