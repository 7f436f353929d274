// Whole files that are read, and whole texts that are written.
ghost use Rattle.std.specs.Prelude.{◌≡◌, ◌<◌, ◌≤◌, ◌+◌, ◌-◌, ◌^◌, ◌++◌, ◌∷◌, [], IsTrue, IsSome, IsNone, IfOk, OnOk, is_ok, length};
ghost use Rattle.lt_io.specs.Counts.{MayFail, SinkCounted, OrCounted};
ghost use Rattle.lt_io.specs.FilesState.{KeepsNames, KeepsFiles, file_left};
ghost use Rattle.lt_io.specs.Visits.{Visited, taken_of};
ghost use Rattle.lt_io.specs.SinkState.{KeepsSink};
ghost use Rattle.lt_io.specs.Transfer.{whole_of, IsReadOf, TakesText};

use crate::{Failed, Files, Sink, SinkErr};
use lt_base::{List, Or};
use std::alloc::Global;

const PIECE: usize = 8192;

/// A whole file, or that it has more bytes than the limit.
#[derive(Drop)]
pub enum Whole {
    Bytes(List<u8>),
    TooLong,
}

/// Reads a whole file of at most this many bytes.
pub fn read_file<F: Files>(
    alloc: Global,
    files: &mut F,
    name: &str,
    limit: usize,
) -> Result<Whole, Or<Failed>>
    requires count { MayFail (F.state files.old).faults }
    requires limit { limit < 2 ^ 63 }
    ensures cause { OrCounted (F.state files.old).faults (F.state files.new).faults result }
    ensures keeps { KeepsNames (F.state files.old) (F.state files.new) }

    // No other file is opened, and of this one no more than the limit and a byte is read.
    ensures visits { Visited ((record { name = name.now; most = limit + 1 }) ∷ []) (F.state files.old).visits (F.state files.new).visits (is_ok result) }

    // Where the files tell their bytes: the named file's, if it is there and within the limit.
    ensures whole { IsTrue (F.state files.old).told → IfOk result (IsReadOf limit ((F.state files.old).named name.now)) }
    ensures missing { IsTrue (F.state files.old).told → IsNone ((F.state files.old).named name.now)
        → (F.state files.old).faults < (F.state files.new).faults }
    ensures sound { IsTrue (F.state files.old).sound → IsSome ((F.state files.old).named name.now)
        → (F.state files.new).faults ≡ (F.state files.old).faults }
{
    match files.open(name) {
        Ok(()) => read_rest(alloc, files, limit),
        Err(failed) => Err(Or::Fault(failed)),
    }
}

/// Reads what is left of the open file.
fn read_rest<F: Files>(alloc: Global, files: &mut F, limit: usize) -> Result<Whole, Or<Failed>>
    requires count { MayFail (F.state files.old).faults }
    requires opened { IsTrue (F.state files.old).is_open }
    requires limit { limit < 2 ^ 63 }
    ensures cause { OrCounted (F.state files.old).faults (F.state files.new).faults result }
    ensures keeps { KeepsFiles (F.state files.old) (F.state files.new) }
    ensures whole { IsTrue (F.state files.old).told → IfOk result (λ whole. whole ≡ whole_of limit (file_left (F.state files.old))) }
    ensures sound { IsTrue (F.state files.old).sound → (F.state files.new).faults ≡ (F.state files.old).faults }
    ensures taken { taken_of (F.state files.new).visits ≤ taken_of (F.state files.old).visits + limit + 1 }
{
    let mut held = List::new(alloc);
    while held.len() <= limit {
        let room = limit - held.len() + 1;
        if read_piece(files, &mut held, room)? == 0 {
            return Ok(Whole::Bytes(held));
        }
    }
    Ok(Whole::TooLong)
}

/// Reads a piece of at most `room` bytes onto the end, and says how many they are.
#[tactic(auto, using(crate::proofs::Visiting::took_most))]
fn read_piece<F: Files>(
    files: &mut F,
    held: &mut List<u8>,
    room: usize,
) -> Result<usize, Or<Failed>>
    requires count { MayFail (F.state files.old).faults }
    requires opened { IsTrue (F.state files.old).is_open }
    requires some { 0 < room }
    ensures cause { OrCounted (F.state files.old).faults (F.state files.new).faults result }
    ensures keeps { KeepsFiles (F.state files.old) (F.state files.new) }
    ensures opened { IsTrue (F.state files.new).is_open }
    ensures longer { IfOk result (λ n. (n ≤ room) × (length held.new ≡ length held.old + n)) }
    ensures bytes { IsTrue (F.state files.old).told → OnOk result
        (held.new ++ file_left (F.state files.new) ≡ held.old ++ file_left (F.state files.old)) }
    ensures at_end { IsTrue (F.state files.old).told → IfOk result (λ n. n ≡ 0 → file_left (F.state files.new) ≡ []) }
    ensures sound { IsTrue (F.state files.old).sound → (F.state files.new).faults ≡ (F.state files.old).faults }
    ensures counted { IfOk result (λ n. taken_of (F.state files.new).visits ≤ taken_of (F.state files.old).visits + n) }
    ensures taken { taken_of (F.state files.new).visits ≤ taken_of (F.state files.old).visits + room }
{
    let mut piece = [0u8; PIECE];
    let most = room.min(PIECE);
    match files.read(&mut piece[..most]) {
        Ok(count) => {
            held.extend(&piece[..count])?;
            Ok(count)
        }
        Err(failed) => Err(Or::Fault(failed)),
    }
}

/// Writes all the bytes. An error leaves a front of them taken.
pub fn write_all<S: Sink>(sink: &mut S, bytes: &[u8]) -> Result<(), SinkErr>
    requires { MayFail (S.state sink.old).faults }
    ensures cause { SinkCounted (S.state sink.old).faults (S.state sink.new).faults result }
    ensures keeps { KeepsSink (S.state sink.old) (S.state sink.new) }
    ensures taken { TakesText bytes.now (S.state sink.old) (S.state sink.new) result }
    ensures sound { IsTrue (S.state sink.old).sound → (S.state sink.new).faults ≡ (S.state sink.old).faults }
{
    let mut done = 0;
    while done < bytes.len() {
        done += sink.write(&bytes[done..])?;
    }
    Ok(())
}
