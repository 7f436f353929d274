// The program's files and streams. What they hold is not told.
ghost use Rattle.std.specs.Prelude.{◌≡◌, ◌<◌, ◌+◌, ◌-◌, ◌^◌, false, is_some, None, []};
ghost use Rattle.lt_io.specs.Counts.{MayFail};

use crate::history::{History, Note};
use crate::{Failed, Files, Sink, SinkErr};
use std::io::{Read, Write};
use std::{fs, rt};

/// The files of the system, with a count of the calls that failed.
#[derive(Drop)]
pub struct RealFiles<R: rt::Files> {
    runtime: R,
    file: Option<R::File>,
    history: History,
    faults: u64,
}

impl<R: rt::Files> RealFiles<R> {
    /// The files of this runtime, of which none is open.
    pub fn new(runtime: R) -> Self
        ensures { (⟦<RealFiles<R> as Files>⟧.state result).faults ≡ 0 }
    {
        RealFiles {
            runtime,
            file: None,
            history: History::new(),
            faults: 0,
        }
    }
}

impl<R: rt::Files> RealFiles<R> {
    fn fault(&mut self) -> Failed
        requires { MayFail self.old.faults }
        ensures { self.new ≡ record self.old { faults = self.old.faults + 1 } }
    {
        self.faults += 1;
        Failed
    }
}

impl<R: rt::Files> Files for RealFiles<R> {
    ghost use Rattle.std.specs.Prelude.{◌<◌, ◌-◌, ◌^◌, IsTrue};
    ghost use Rattle.std.specs.Io.KnownBytes.{ReadConsumes};
    ghost use Rattle.lt_io.specs.FilesState.{ReadsNext};
    ghost use Rattle.lt_io.specs.Real.{left_in, untold_files};

    ghost state = { λ s. untold_files s.history.visits (is_some s.file) s.faults };

    ghost sound_tells = { λ files sound. sound };

    fn open(&mut self, name: &str) -> Result<(), Failed> {
        self.file = None;
        self.history = self.history.then(&Note::Open(name));
        match fs::open(&self.runtime, name) {
            Ok(file) => {
                self.file = Some(file);
                Ok(())
            }
            Err(_) => Err(self.fault()),
        }
    }

    fn read(&mut self, buf: &mut [u8]) -> Result<usize, Failed>
        requires count { MayFail (⟦<RealFiles<R> as Files>⟧.state self.old).faults }
        requires opened { IsTrue (⟦<RealFiles<R> as Files>⟧.state self.old).is_open }
        ensures reads { ReadsNext (⟦<RealFiles<R> as Files>⟧.state self.old) (⟦<RealFiles<R> as Files>⟧.state self.new) buf.new result }

        // What was read is what the system's file gave, and the end is its end.
        ensures system { ReadConsumes (left_in R.File.remaining self.old.file) (left_in R.File.remaining self.new.file) result buf.new }
    {
        let Some(file) = &mut self.file else {
            unreachable!();
        };
        let Ok(count) = file.read(buf) else {
            return Err(self.fault());
        };
        self.history = self.history.then(&Note::Read(count));
        Ok(count)
    }
}

/// An output stream, with a count of the calls that failed. A write that takes nothing is a fault.
#[derive(Drop)]
pub struct RealSink<W: Write> {
    stream: W,
    faults: u64,
}

impl<W: Write> RealSink<W> {
    pub fn new(stream: W) -> Self
        ensures { (⟦<RealSink<W> as Sink>⟧.state result).faults ≡ 0 }
    {
        RealSink { stream, faults: 0 }
    }
}

impl<W: Write> Sink for RealSink<W> {
    ghost use Rattle.std.specs.Prelude.{◌<◌, ◌-◌, ◌^◌, false, [], length, IsErrOf};
    ghost use Rattle.std.specs.Io.KnownBytes.{WriteAppends};
    ghost use Rattle.lt_io.specs.Real.{untold_sink};
    ghost use Rattle.lt_io.specs.SinkState.{SinkState, WritesFront};

    ghost state = { λ s. untold_sink s.faults };

    fn write(&mut self, bytes: &[u8]) -> Result<usize, SinkErr>
        requires count { MayFail self.old.faults }
        requires some { 0 < length bytes.now }
        ensures writes { WritesFront (⟦<RealSink<W> as Sink>⟧.state self.old) (⟦<RealSink<W> as Sink>⟧.state self.new) bytes.now result }
        ensures never { ¬ IsErrOf result SinkErr.Memory }

        // The system's stream took what it is said to have taken.
        ensures system { WriteAppends (W.contents self.old.stream) (W.contents self.new.stream) result bytes.now }
    {
        match self.stream.write(bytes) {
            Ok(count) if count > 0 => Ok(count),
            _ => {
                self.faults += 1;
                Err(SinkErr::Failed)
            }
        }
    }
}
