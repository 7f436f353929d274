// A schedule as a space-time diagram, from its files.
ghost use Rattle.std.specs.Prelude.{◌≡◌};
ghost use Rattle.lt_io.specs.Counts.{MayFail};
ghost use Rattle.lt_answer.specs.Alone.{given_word};
ghost use Rattle.lt_drawing.specs.Drawn.{DrawsOnFiles, DrawsStage, ReadsGroundCourse};

use crate::picturing::draw_course;
use crate::view::DrawView;
use lt_arch::Pace;
use lt_base::{List, Or};
use lt_course::{Course, read_course};
use lt_inspect::{Ground, Setups, Stage, load_stage};
use lt_io::Files;
use lt_load::CommandFault;
use lt_lossy_course::read_lossy_course;
use lt_tape::Asked;
use std::alloc::Global;

/// One SVG of a schedule over a program's setup, whose timing need not be accepted and in which a node may lead or links may lose
/// messages, with any number of messages in transit on a channel; where a node is named, of the messages from it and to it alone. A
/// schedule with an offence is drawn up to that. The files are read in this order: the program, the setup, the inputs and the schedule;
/// that the name is one of a node is seen after the placement.
pub fn draw<F: Files>(
    alloc: Global,
    files: &mut F,
    program: &str,
    inputs: &str,
    schedule: &str,
    config: &str,
    node: Option<&str>,
    view: DrawView,
) -> Result<List<u8>, Or<CommandFault>>
    requires files { MayFail (F.state files.old).faults }
    ensures { DrawsOnFiles program.now inputs.now schedule.now config.now (given_word node.entry) view (F.state files.old) (F.state files.new) result }
{
    let stage = load_stage(
        alloc,
        files,
        program,
        inputs,
        config,
        node,
        Setups::Windowed,
    )?;
    let text = draw_stage(alloc, files, &stage, schedule, config, view);
    drop(stage);
    text
}

// What is drawn of a schedule file, by the pace of the protocol.
fn read_course_by<F: Files>(
    alloc: Global,
    files: &mut F,
    ground: &Ground,
    rows: u32,
    schedule: &str,
    asked: Asked,
) -> Result<Course, Or<CommandFault>>
    requires { MayFail (F.state files.old).faults }
    ensures { ReadsGroundCourse asked ground.now rows schedule.now (F.state files.old) (F.state files.new) result }
{
    let shape = &ground.shape;
    let timing = &ground.timing;
    let cross = &ground.cross;
    match ground.pace {
        Pace::Lossy(losses) => {
            read_lossy_course(
                alloc, files, schedule, shape, timing, cross, losses, rows, asked,
            )
        }
        Pace::Plain | Pace::Leader(_) => {
            read_course(alloc, files, schedule, shape, timing, cross, rows, asked)
        }
    }
}

// The same over what was loaded.
fn draw_stage<F: Files>(
    alloc: Global,
    files: &mut F,
    stage: &Stage,
    schedule: &str,
    config: &str,
    view: DrawView,
) -> Result<List<u8>, Or<CommandFault>>
    requires { MayFail (F.state files.old).faults }
    ensures { DrawsStage stage.now schedule.now config.now view (F.state files.old) (F.state files.new) result }
{
    let asked = Asked {
        from: view.from,
        to: view.to,
    };
    let course = read_course_by(alloc, files, &stage.ground, stage.rows, schedule, asked)?;
    let text = draw_course(
        alloc,
        schedule.as_bytes(),
        config.as_bytes(),
        view,
        stage,
        &course,
    );
    drop(course);
    match text {
        Ok(text) => Ok(text),
        Err(_) => Err(Or::Memory),
    }
}
