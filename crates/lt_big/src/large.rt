// What the files of the large input are loaded as.
ghost use Rattle.std.specs.Prelude.{◌≡◌, ◌++◌, [], ◌∷◌, IfOk, OnOk};
ghost use Rattle.lt_io.specs.MemFiles.{mem_files_state};
ghost use Rattle.lt_answer.specs.Answered.{Settles};
ghost use Rattle.lt_load.specs.Plan.{Loads};
ghost use Rattle.lt_big.specs.Big.{files_of, big_loaded_verdict};
ghost use Rattle.lt_big.specs.Stage.{FilesHold};

use lt_base::{List, Memory, Name, Or};
use lt_big_texts::{inputs, program, setup};
use lt_io::{MemFile, MemFiles};
use lt_load::{CommandFault, Loaded, load_plain};
use std::alloc::Global;

// A file of this name.
fn file(alloc: Global, name: &str, bytes: List<u8>) -> Result<MemFile, Memory>
    ensures { IfOk result (λ file. file ≡ record { name = name.now; bytes = bytes }) }
{
    Ok(MemFile {
        name: Name::from_str(alloc, name)?,
        bytes,
    })
}

// These files, on which no call fails but the opening of a missing one.
fn held(alloc: Global, files: List<MemFile>) -> MemFiles
    ensures { FilesHold files (mem_files_state result) }
{
    MemFiles::new(files, List::new(alloc))
}

// Adds a file of this name.
fn add(alloc: Global, files: &mut List<MemFile>, name: &str, bytes: List<u8>) -> Result<(), Memory>
    ensures { OnOk result (files.new ≡ files.old ++ record { name = name.now; bytes = bytes } ∷ []) }
{
    let file = file(alloc, name, bytes)?;
    files.push(file)?;
    Ok(())
}

// Adds the program, the setup and the inputs of so many instants.
fn add_all(alloc: Global, files: &mut List<MemFile>, instants: u32) -> Result<(), Memory>
    ensures { OnOk result (files.new ≡ files.old ++ files_of instants) }
{
    add(alloc, files, "program", program(alloc)?)?;
    add(alloc, files, "setup", setup(alloc)?)?;
    add(alloc, files, "inputs", inputs(alloc, instants)?)
}

// The program, the setup and the inputs of so many instants.
fn files(alloc: Global, instants: u32) -> Result<List<MemFile>, Memory>
    ensures { IfOk result (λ files. files ≡ files_of instants) }
{
    let mut files = List::new(alloc);
    add_all(alloc, &mut files, instants)?;
    Ok(files)
}

/// Loads the large input of so many instants from its files in memory, as `load_plain` loads files.
pub(crate) fn load(alloc: Global, instants: u32) -> Result<Loaded, Or<CommandFault>>
    ensures { Settles (Loads (big_loaded_verdict instants)) result }
{
    let mut files = held(alloc, files(alloc, instants)?);
    let loaded = load_plain(alloc, &mut files, "program", "inputs", "setup");
    drop(files);
    loaded
}
