// What is drawn of the events that a recorder has taken.
ghost use Rattle.std.specs.Prelude.{◌≡◌, ◌<◌, ◌++◌, ℕ, List as Items, Option, option_map, is_some, IfOk, OnOk};
ghost use Rattle.lt_course.specs.Whole.{IsCourseBy, WholeCourse, stop_time, stopped_before, unended_by};

use crate::course::{Course, RefusedEvent, Stopped};
use crate::drawable::Drawable;
use crate::recording::Recording;
use crate::refusing::stop_time;
use lt_arch::Offence;
use lt_base::{List, Memory};
use lt_diagram::{Arrow, Wrong};
use lt_lossy::LossyOffence;
use std::alloc::Global;

// The messages that are in transit, each up to when it is due.
fn pending_of<D: Drawable>(alloc: Global, drawn: &D) -> Result<List<Arrow>, Memory>
    requires { (w : WholeCourse) × D.draws drawn.now w }
    ensures { IfOk result (λ arrows. (w : WholeCourse) → D.draws drawn.now w → arrows ≡ w.pending) }
{
    let mut arrows = List::new(alloc);
    let channels = drawn.channel_count();
    'channels: for channel in 0..channels {
        add_pending(drawn, channel, &mut arrows)?;
    }
    Ok(arrows)
}

// Appends those of one channel.
fn add_pending<D: Drawable>(drawn: &D, channel: u32, arrows: &mut List<Arrow>) -> Result<(), Memory>
    requires draws { (w : WholeCourse) × D.draws drawn.now w }
    requires channel { channel < D.channels drawn.now }
    ensures { OnOk result (arrows.new ≡ arrows.old ++ D.transit drawn.now channel) }
{
    let count = drawn.transit_count(channel);
    'places: for place in 0..count {
        arrows.push(drawn.arrow_at(channel, place))?;
    }
    Ok(())
}

/// What is drawn of a list whose next event is refused.
pub fn stopped_before<D: Drawable>(
    alloc: Global,
    drawn: &D,
    refused: RefusedEvent,
) -> Result<Stopped, Memory>
    requires { (w : WholeCourse) × D.draws drawn.now w }
    ensures { IfOk result (λ x. (w : WholeCourse) → D.draws drawn.now w → x ≡ stopped_before (D.asked drawn.now) w refused) }
{
    let pending = pending_of(alloc, drawn)?;
    let excerpt = drawn.tape().excerpt(Some(stop_time(&refused)))?;
    Ok(Stopped {
        excerpt,
        pending,
        refused,
        miss: drawn.miss(),
    })
}

/// What events are drawn as that were all taken.
pub(crate) fn course_of<R: Recording>(alloc: Global, recorder: &R) -> Result<Course, Memory>
    requires { (outside : Unit {0}) × (steps : ℕ) × (es : Items R.Event) × R.stands recorder.now outside steps es }
    ensures { IfOk result (λ course. (outside : Unit {0}) (steps : ℕ) (es : Items R.Event) → R.stands recorder.now outside steps es
        → IsCourseBy (R.asked recorder.now) (R.whole recorder.now es) course) }
{
    let pending = pending_of(alloc, recorder)?;
    let tape = recorder.tape();
    let refused = unended(alloc, recorder.is_ended(), tape.last_time());
    let excerpt = tape.excerpt(stop_of(&refused))?;
    Ok(Course {
        excerpt,
        pending,
        refused,
        miss: recorder.miss(),
    })
}

fn stop_of(refused: &Option<RefusedEvent>) -> Option<u64>
    ensures { result ≡ option_map stop_time refused.now }
{
    match refused {
        None => None,
        Some(refused) => Some(stop_time(refused)),
    }
}

// Where a list stops whose last event has this time.
fn unended(alloc: Global, ended: bool, last: u64) -> Option<RefusedEvent>
    ensures { (horizon : Option ℕ) → ended ≡ is_some horizon → result ≡ unended_by horizon last }
{
    if ended {
        return None;
    }
    Some(RefusedEvent {
        time: last,
        row: List::new(alloc),
        offence: LossyOffence::Common(Offence::NoEnd),
        bound: None,
        wrong: Wrong::Moment,
    })
}
