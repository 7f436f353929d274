// The picture of a schedule.
ghost use Rattle.std.specs.Prelude.{◌≡◌, ◌==◌, ◌++◌, find, is_some, unwrap_or, IfOk};
ghost use Rattle.lt_arch.specs.Paced.{allowed_of};
ghost use Rattle.lt_draw.specs.PictureText.{picture_text};
ghost use Rattle.lt_text_lines.specs.ScheduleLines.{lossy_line};
ghost use Rattle.lt_drawing.specs.Kept.{arrows_if};
ghost use Rattle.lt_drawing.specs.Pictures.{shown_refusal, facts_text, picture_of, refusal_in, ring_at, ring_in, ring_of};

use crate::keeping::kept_arrows;
use crate::titles::{
    append_extent, append_setting, note_text, refused_row_text, ring_text, title_text,
};
use crate::view::DrawView;
use lt_arch::{Pace, Shape};
use lt_audit::Miss;
use lt_base::{List, Memory};
use lt_course::{Course, RefusedEvent, number_behind};
use lt_diagram::{Arrow, Mark, Picture, Ring};
use lt_draw::write_picture;
use lt_inspect::Stage;
use lt_lossy::LossyOffence;
use lt_tape::{Window, is_in_window, time_or_zero};
use lt_text_lines::append_lossy;
use std::alloc::Global;

// The line below the title.
fn facts_text(alloc: Global, stage: &Stage, course: &Course) -> Result<List<u8>, Memory>
    ensures { IfOk result (λ text. text ≡ facts_text stage.now course.now) }
{
    let ground = &stage.ground;
    let excerpt = &course.excerpt;
    let nodes = ground.shape.nodes.len();
    let mut out = List::new(alloc);
    append_setting(&mut out, ground.pace, ground.timing.protocol, nodes)?;
    append_extent(
        &mut out,
        &ground.shape,
        ground.node,
        excerpt.window,
        excerpt.shown,
        excerpt.count,
        excerpt.last,
        &course.refused,
    )?;
    Ok(out)
}

// The line of a run that refuses an event of this number.
fn refusal_line(
    alloc: Global,
    shape: &Shape,
    number: u32,
    offence: LossyOffence,
) -> Result<List<u8>, Memory>
    ensures { IfOk result (λ line. line ≡ lossy_line shape.now number offence) }
{
    let mut line = List::new(alloc);
    append_lossy(&mut line, shape, number, offence)?;
    Ok(line)
}

// The event of this number that is refused.
fn shown_refusal(
    alloc: Global,
    shape: &Shape,
    number: u32,
    refused: &RefusedEvent,
) -> Result<lt_diagram::Offence, Memory>
    ensures { IfOk result (λ drawn. drawn ≡ shown_refusal shape.now number refused.now) }
{
    let refusal = refusal_line(alloc, shape, number, refused.offence)?;
    let row = refused_row_text(alloc, number, refused.row.as_slice(), refused.offence)?;
    let note = note_text(alloc, time_or_zero(refused.bound), refused.offence)?;
    Ok(lt_diagram::Offence {
        time: refused.time,
        refusal,
        row,
        note,
        wrong: refused.wrong,
    })
}

fn refusal_in(
    alloc: Global,
    shape: &Shape,
    number: u32,
    refused: &Option<RefusedEvent>,
) -> Result<Option<lt_diagram::Offence>, Memory>
    ensures { IfOk result (λ drawn. drawn ≡ refusal_in shape.now number refused.now) }
{
    match refused {
        None => Ok(None),
        Some(refused) => Ok(Some(shown_refusal(alloc, shape, number, refused)?)),
    }
}

fn ring_at(
    alloc: Global,
    shape: &Shape,
    window: Window,
    time: u64,
    miss: Miss,
) -> Result<Option<Ring>, Memory>
    ensures { IfOk result (λ ring. ring ≡ ring_at shape.now window time miss) }
{
    if !is_in_window(window, time) {
        return Ok(None);
    }
    let line = ring_text(alloc, shape, miss)?;
    Ok(Some(Ring {
        event: miss.event,
        node: miss.node,
        time,
        line,
    }))
}

// The mark of the event of this number.
fn mark_of(event: u32, marks: &[Mark]) -> Option<Mark>
    ensures { result ≡ find (λ k. k.event == event) marks.now }
{
    marks.iter().copied().find(|mark| mark.event == event)
}

fn ring_of(
    alloc: Global,
    shape: &Shape,
    window: Window,
    mark: Option<Mark>,
    miss: Miss,
) -> Result<Option<Ring>, Memory>
    ensures { IfOk result (λ ring. ring ≡ ring_of shape.now window mark miss) }
{
    match mark {
        None => Ok(None),
        Some(mark) => ring_at(alloc, shape, window, mark.time, miss),
    }
}

// The first execution with a message too few or too many, where its event is drawn.
fn ring_in(
    alloc: Global,
    shape: &Shape,
    window: Window,
    marks: &[Mark],
    miss: Option<Miss>,
) -> Result<Option<Ring>, Memory>
    ensures { IfOk result (λ ring. ring ≡ ring_in shape.now window marks.now miss) }
{
    match miss {
        None => Ok(None),
        Some(miss) => ring_of(alloc, shape, window, mark_of(miss.event, marks), miss),
    }
}

// Whether links lose messages.
fn loses(pace: Pace) -> bool
    ensures { result ≡ is_some (allowed_of pace) }
{
    match pace {
        Pace::Lossy(_) => true,
        Pace::Plain | Pace::Leader(_) => false,
    }
}

fn width_of(view: DrawView) -> u32
    ensures { result ≡ unwrap_or view.width 760 }
{
    match view.width {
        Some(width) => width,
        None => 760,
    }
}

// The picture of a schedule over its stage.
fn picture_of(
    alloc: Global,
    schedule: &[u8],
    config: &[u8],
    view: DrawView,
    stage: &Stage,
    course: &Course,
) -> Result<Picture, Memory>
    ensures { IfOk result (λ picture. picture ≡ picture_of schedule.now config.now view stage.now course.now) }
{
    let shape = &stage.ground.shape;
    let excerpt = &course.excerpt;
    let window = excerpt.window;
    let marks = excerpt.marks.as_slice();
    let number = number_behind(excerpt.count);
    Ok(Picture {
        width: width_of(view),
        from: window.from,
        to: window.to,
        title: title_text(alloc, schedule, config)?,
        facts: facts_text(alloc, stage, course)?,
        names: shape.nodes.copy()?,
        marks: List::from_slice(alloc, marks)?,
        arrows: drawn_arrows(alloc, stage.ground.node, course)?,
        again: loses(stage.ground.pace),
        offence: refusal_in(alloc, shape, number, &course.refused)?,
        ring: ring_in(alloc, shape, window, marks, course.miss)?,
    })
}

// The messages of a course, of a node that is named or of all.
fn drawn_arrows(alloc: Global, node: Option<u32>, course: &Course) -> Result<List<Arrow>, Memory>
    ensures { IfOk result (λ arrows. arrows ≡ arrows_if course.now.excerpt.window node course.now.refused course.now.excerpt.lines
        ++ arrows_if course.now.excerpt.window node course.now.refused course.now.pending) }
{
    let excerpt = &course.excerpt;
    kept_arrows(
        alloc,
        excerpt.window,
        node,
        &course.refused,
        excerpt.lines.as_slice(),
        course.pending.as_slice(),
    )
}

/// The text of the picture of a schedule over its stage.
pub(crate) fn draw_course(
    alloc: Global,
    schedule: &[u8],
    config: &[u8],
    view: DrawView,
    stage: &Stage,
    course: &Course,
) -> Result<List<u8>, Memory>
    ensures { IfOk result (λ text. text ≡ picture_text (picture_of schedule.now config.now view stage.now course.now)) }
{
    let picture = picture_of(alloc, schedule, config, view, stage, course)?;
    write_picture(alloc, &picture)
}
