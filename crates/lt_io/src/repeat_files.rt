// A long file in little memory, for tests.
ghost use Rattle.std.specs.Prelude.{◌≡◌, ◌<◌, ◌≤◌, ◌+◌, ◌*◌, ◌^◌, length, true};

use crate::copy::copy_from;
use crate::history::{History, Note};
use crate::{Failed, Files};
use lt_base::List;
use std::marker::Model;

/// One file, named `lines`, that has the same bytes many times. Only an `open` of another name
/// fails.
#[derive(Drop)]
pub struct RepeatFiles {
    line: List<u8>,
    times: u64,
    whole: u64,
    since: usize,
    is_open: bool,
    history: History,
    faults: u64,
}

impl Model for RepeatFiles {
    ghost use Rattle.lt_io.specs.RepeatFiles.{RepeatState, RepeatIsWithin, repeat_state};

    ghost Value = { RepeatState };

    ghost view = { λ f. repeat_state f.line f.times f.whole f.since f.is_open f.history.visits f.faults };

    ghost invariant = { λ f. RepeatIsWithin (repeat_state f.line f.times f.whole f.since f.is_open f.history.visits f.faults) };
}

impl RepeatFiles {
    ghost use Rattle.lt_io.specs.RepeatFiles.{repeat_files_state, repeated_bytes, only_file};

    /// The file that has these bytes so many times; it is not open. It takes no memory.
    pub fn new(line: List<u8>, times: u64) -> Self
        requires { length line * times < 2 ^ 63 }
        ensures sound { (repeat_files_state result).sound ≡ true }
        ensures told { (repeat_files_state result).told ≡ true }
        ensures named { (repeat_files_state result).named ≡ only_file (repeated_bytes times line) }
        ensures faults { (repeat_files_state result).faults ≡ 0 }
    {
        RepeatFiles {
            line,
            times,
            whole: 0,
            since: 0,
            is_open: false,
            history: History::new(),
            faults: 0,
        }
    }
}

impl Files for RepeatFiles {
    ghost use Rattle.std.specs.Prelude.{refl};
    ghost use Rattle.lt_io.specs.RepeatFiles.{repeat_files_state};

    ghost state = { repeat_files_state };

    ghost sound_tells = { λ files sound. refl };

    fn open(&mut self, name: &str) -> Result<(), Failed> {
        self.history = self.history.then(&Note::Open(name));
        self.is_open = name == "lines";
        if !self.is_open {
            self.faults += 1;
            return Err(Failed);
        }
        self.whole = 0;
        self.since = 0;
        Ok(())
    }

    fn read(&mut self, buf: &mut [u8]) -> Result<usize, Failed> {
        if self.whole == self.times {
            self.history = self.history.then(&Note::Read(0));
            return Ok(0);
        }
        let count = copy_from(&self.line, self.since, buf);
        self.history = self.history.then(&Note::Read(count));
        self.since += count;
        if self.since == self.line.len() {
            self.whole += 1;
            self.since = 0;
        }
        Ok(count)
    }
}
