// Files in memory, and the calls on them that fail.
ghost use Rattle.std.specs.Prelude.{◌<◌, ◌-◌, ◌^◌, All, IfOk};

use lt_base::{List, Memory, Name};
use lt_io::MemFile;
use std::alloc::Global;

/// The calls that are to fail: one, or none where it is 0.
pub fn failing_calls(alloc: Global, call: u64) -> Result<List<u64>, Memory>
    requires { call < 2 ^ 64 - 1 }
    ensures { IfOk result (λ calls. All (λ n. n < 2 ^ 64 - 1) calls) }
{
    let mut calls = List::new(alloc);
    if call > 0 {
        calls.push(call)?;
    }
    Ok(calls)
}

fn file(alloc: Global, name: &str, bytes: &[u8]) -> Result<MemFile, Memory> {
    Ok(MemFile {
        name: Name::from_str(alloc, name)?,
        bytes: List::from_slice(alloc, bytes)?,
    })
}

/// Adds a file.
pub fn add_file(
    alloc: Global,
    files: &mut List<MemFile>,
    name: &str,
    bytes: &[u8],
) -> Result<(), Memory> {
    let file = file(alloc, name, bytes)?;
    files.push(file)
}
