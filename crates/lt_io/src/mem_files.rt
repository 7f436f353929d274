// Files in memory.
ghost use Rattle.std.specs.Prelude.{◌≡◌, ◌==◌, ◌<◌, ◌-◌, ◌^◌, ◌+◌, All, true, drop, length, take, min};
ghost use Rattle.lt_io.specs.Counts.{MayFail};
ghost use Rattle.lt_io.specs.MemFiles.{lookup, bytes_at, place_of};

use crate::calls::Calls;
use crate::copy::copy_from;
use crate::history::{History, Note};
use crate::{Failed, Files};
use lt_base::{List, Name};

/// A file's name and its bytes.
#[derive(Drop)]
pub struct MemFile {
    pub name: Name,
    pub bytes: List<u8>,
}

/// Named byte lists, and the numbers of the calls that are to fail, counted from 1. Of two files
/// of one name the first counts.
#[derive(Drop)]
pub struct MemFiles {
    files: List<MemFile>,
    calls: Calls,
    current: usize,
    place: usize,
    is_open: bool,
    history: History,
}

impl MemFiles {
    ghost use Rattle.lt_io.specs.MemFiles.{mem_files_state, files_calls};

    /// These files, of which none is open. It takes no memory.
    pub fn new(files: List<MemFile>, fails: List<u64>) -> Self
        requires { All (λ n. n < 2 ^ 64 - 1) fails }
        ensures sound { (mem_files_state result).sound ≡ (length fails == 0) }
        ensures told { (mem_files_state result).told ≡ true }
        ensures named { (mem_files_state result).named ≡ lookup files }
        ensures faults { (mem_files_state result).faults ≡ 0 }
        ensures calls { files_calls result ≡ record { fails = fails; made = 0; faults = 0 } }
    {
        MemFiles {
            files,
            calls: Calls::new(fails),
            current: 0,
            place: 0,
            is_open: false,
            history: History::new(),
        }
    }
}

impl Files for MemFiles {
    ghost use Rattle.std.specs.Prelude.{refl, ◌<◌, ◌-◌, ◌^◌, ◌↔◌, ◌⊎◌, IsTrue, IsErr, IsNone};
    ghost use Rattle.lt_io.specs.FilesState.{FilesState, OpensFile, ReadsNext};
    ghost use Rattle.lt_io.specs.Calls.{IsListed, CountsCall};
    ghost use Rattle.lt_io.specs.MemFiles.{mem_files_state, files_calls};

    ghost state = { mem_files_state };

    ghost sound_tells = { λ files sound. refl };

    #[tactic(auto, using(crate::proofs::Lookup::lookup_is))]
    fn open(&mut self, name: &str) -> Result<(), Failed>
        requires { MayFail (mem_files_state self.old).faults }
        ensures opens { OpensFile (mem_files_state self.old) (mem_files_state self.new) name.now result }
        ensures fails { IsErr result ↔ (IsListed (files_calls self.old) ⊎ IsNone ((mem_files_state self.old).named name.now)) }
        ensures calls { CountsCall (files_calls self.old) (files_calls self.new) }
    {
        self.is_open = false;
        self.history = self.history.then(&Note::Open(name));
        self.calls.call()?;
        match find(&self.files, name) {
            Some(i) => {
                self.current = i;
                self.place = 0;
                self.is_open = true;
                Ok(())
            }
            None => Err(self.calls.fault()),
        }
    }

    fn read(&mut self, buf: &mut [u8]) -> Result<usize, Failed>
        requires count { MayFail (mem_files_state self.old).faults }
        requires opened { IsTrue (mem_files_state self.old).is_open }
        ensures reads { ReadsNext (mem_files_state self.old) (mem_files_state self.new) buf.new result }
        ensures fails { IsErr result ↔ IsListed (files_calls self.old) }
        ensures calls { CountsCall (files_calls self.old) (files_calls self.new) }
    {
        self.calls.call()?;
        let count = read_part(&self.files, self.current, self.place, buf);
        self.place += count;
        self.history = self.history.then(&Note::Read(count));
        Ok(count)
    }
}

/// The place of the first file of this name.
fn find(files: &[MemFile], name: &str) -> Option<usize>
    ensures { result ≡ place_of files.now name.now }
{
    files.iter().position(|file| file.name.as_str() == name)
}

/// Copies the next bytes of the file at this place in the list, as many as there is room for, and says how many.
fn read_part(files: &List<MemFile>, current: usize, place: usize, buf: &mut [u8]) -> usize
    ensures front { take result buf.new ≡ take result (drop place (bytes_at files.now current)) }
    ensures count { result ≡ min (length (drop place (bytes_at files.now current))) (length buf.old) }
    ensures fits { place + result < 2 ^ 64 }
{
    match files.get(current) {
        None => 0,
        Some(file) => copy_from(&file.bytes, place, buf),
    }
}
