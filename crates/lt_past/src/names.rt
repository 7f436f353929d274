// The outputs that an observer names.
ghost use Rattle.std.specs.Prelude.{◌≡◌, ◌<◌, ◌^◌, ◌==◌, position, length, false, ℕ, IfOk, IfSome, slice_index_or, vec_len};
ghost use Rattle.lt_past.specs.Naming as naming;
ghost use Rattle.lt_past.specs.Marking.{MarksNames, marked_below};

use crate::tokens::{Front, read_front};
use crate::{ObserverFault, ObserverKind};
use lt_base::{Clock, Func, List, Memory, Ty};
use lt_tokens::skip;
use std::alloc::Global;

/// The variable has this name.
fn is_called(main: &Func, variable: u32, name: &[u8]) -> bool
    requires { variable < length main.now.decls }
    ensures { result ≡ naming.is_called main.now name.now variable }
{
    main.decls[variable as usize].name.as_str().as_bytes() == name
}

/// The place of the first output with this name.
fn place_of(main: &Func, name: &[u8]) -> Option<usize>
    ensures value { result ≡ position (naming.is_called main.now name.now) main.now.outs }
    ensures low { IfSome result (λ place. place < length main.now.outs) }
{
    main.invariant_holds();
    'outs: for (place, out) in main.outs.iter().enumerate() {
        if is_called(main, *out, name) {
            return Some(place);
        }
    }
    None
}

fn of_clock(place: usize, clock: &Clock) -> Result<usize, ObserverKind>
    ensures { result ≡ naming.of_clock place clock.now }
{
    if clock.steps.is_empty() {
        Ok(place)
    } else {
        Err(ObserverKind::NotBase)
    }
}

/// The place of an output that is a bool on the base clock, or why it is not.
fn of_variable(main: &Func, variable: u32, place: usize) -> Result<usize, ObserverKind>
    requires { variable < length main.now.decls }
    ensures { let d = naming.declaration main.now variable in result ≡ naming.of_type place d.ty d.clock }
{
    let declared = &main.decls[variable as usize];
    match declared.ty {
        Ty::Int => Err(ObserverKind::NotBool),
        Ty::Bool => of_clock(place, &declared.clock),
    }
}

/// The place of the output with this name, which is a bool on the base clock.
pub fn output_of(main: &Func, name: &[u8]) -> Result<usize, ObserverKind>
    ensures value { result ≡ naming.output_of main.now name.now }
    ensures low { IfOk result (λ y. y < length main.now.outs) }
{
    main.invariant_holds();
    match place_of(main, name) {
        Some(place) => of_variable(main, main.outs[place], place),
        None => Err(ObserverKind::UnknownName),
    }
}

/// So many marks, none of them set.
pub fn no_marks(alloc: Global, n: usize) -> Result<Vec<bool>, Memory>
    ensures none { IfOk result (λ marks. (place : ℕ) → slice_index_or marks.items place false ≡ false) }
    ensures size { IfOk result (λ marks. vec_len marks ≡ n) }
{
    Ok(vec![in alloc; false; n]?)
}

/// Marks the outputs that the names of a text name, up to its end or a byte that starts no token; or answers the first name that
/// is that of no bool output on the base clock.
pub fn mark_names(main: &Func, bytes: &[u8], marks: &mut [bool]) -> Option<ObserverFault>
    requires { length marks.old ≡ length main.now.outs }
    ensures { MarksNames main.now bytes.now marks.old marks.new result }
{
    let mut rest = bytes;
    'text: loop {
        let here = skip(rest);
        match read_front(here) {
            Front::Name(n) => {
                match output_of(main, &here[..n]) {
                    Ok(place) => marks[place] = true,
                    Err(kind) => {
                        let at = bytes.len() - here.len();
                        return Some(ObserverFault { at, kind });
                    }
                }
                rest = &here[n..];
            }
            Front::Other(_, n) => rest = &here[n..],
            Front::Over | Front::BadByte => return None,
        }
    }
}

/// The marked places.
pub fn marked_places(alloc: Global, marks: &[bool]) -> Result<List<u32>, Memory>
    requires { length marks.now < 2 ^ 32 }
    ensures { IfOk result (λ outs. outs ≡ marked_below marks.now (length marks.now)) }
{
    let mut outs = List::new(alloc);
    for (place, mark) in marks.iter().enumerate() {
        if *mark {
            outs.push(place as u32)?;
        }
    }
    Ok(outs)
}

/// The number of a name's output among some places.
pub fn number_of(main: &Func, outs: &[u32], name: &[u8]) -> u32
    requires { length outs.now < 2 ^ 32 }
    ensures { result ≡ naming.output_number main.now outs.now name.now }
{
    match output_of(main, name) {
        Ok(place) => place_in(outs, place),
        Err(_) => 0,
    }
}

/// The place of an output among some places; 0 where it is not among them.
fn place_in(outs: &[u32], place: usize) -> u32
    requires { length outs.now < 2 ^ 32 }
    ensures { result ≡ naming.or_zero (position (λ z. z == place) outs.now) }
{
    match position_in(outs, place) {
        Some(k) => k as u32,
        None => 0,
    }
}

fn position_in(outs: &[u32], place: usize) -> Option<usize>
    ensures value { result ≡ position (λ z. z == place) outs.now }
    ensures low { IfSome result (λ k. k < length outs.now) }
{
    'outs: for k in 0..outs.len() {
        if outs[k] as usize == place {
            return Some(k);
        }
    }
    None
}
