// Files that are read, one at a time.
ghost use Rattle.std.specs.Prelude.{◌<◌, ◌-◌, ◌^◌, IsTrue};
ghost use Rattle.lt_io.specs.Counts.{MayFail};
ghost use Rattle.lt_io.specs.FilesState.{FilesState, OpensFile, ReadsNext};

use crate::Failed;

/// Named files, of which one at a time is open.
pub trait Files {
    ghost state: { Self → FilesState };

    /// Makes the named file the open one, at its start. A missing file is a counted failure.
    fn open(&mut self, name: &str) -> Result<(), Failed>
        requires { MayFail (state self.old).faults }
        ensures { OpensFile (state self.old) (state self.new) name.now result };

    /// Fills a front of the buffer with the next bytes, and says how many they are. Zero for a
    /// buffer that is not empty is the end of the file.
    fn read(&mut self, buf: &mut [u8]) -> Result<usize, Failed>
        requires count { MayFail (state self.old).faults }
        requires opened { IsTrue (state self.old).is_open }
        ensures { ReadsNext (state self.old) (state self.new) buf.new result };

    ghost sound_tells: { (files : Self) → IsTrue (state files).sound → IsTrue (state files).told };
}
