// `check`: a program that passes all checks, in its canonical form.
ghost use Rattle.std.specs.Prelude.{None, Some};
ghost use Rattle.lt_io.specs.Counts.{MayFail};
ghost use Rattle.lt_answer.specs.Alone.{given_word};
ghost use Rattle.lt_cli.specs.Commands.Check.{AnswersCheck};

use lt_base::{List, Or};
use lt_io::Files;
use lt_load::{check_with, load_text};
use lt_text_answers::{Refusal, check_text, setup_check_text};
use std::alloc::Global;

/// The canonical text of a program that passes all checks, with a setup's beside its own.
pub(crate) fn check<F: Files>(
    alloc: Global,
    files: &mut F,
    program: &str,
    config: Option<&str>,
) -> Result<List<u8>, Or<Refusal>>
    requires { MayFail (F.state files.old).faults }
    ensures { AnswersCheck program.now (given_word config.entry) (F.state files.old) (F.state files.new) result }
{
    match config {
        Some(config) => check_with_setup(alloc, files, program, config),
        None => check_alone(alloc, files, program),
    }
}

// The canonical text of a program that passes all checks.
fn check_alone<F: Files>(
    alloc: Global,
    files: &mut F,
    program: &str,
) -> Result<List<u8>, Or<Refusal>>
    requires { MayFail (F.state files.old).faults }
    ensures { AnswersCheck program.now None (F.state files.old) (F.state files.new) result }
{
    let printed = load_text(alloc, files, program);
    check_text(printed)
}

// The canonical text of a program that passes all checks and that a setup fits.
fn check_with_setup<F: Files>(
    alloc: Global,
    files: &mut F,
    program: &str,
    config: &str,
) -> Result<List<u8>, Or<Refusal>>
    requires { MayFail (F.state files.old).faults }
    ensures { AnswersCheck program.now (Some config.now) (F.state files.old) (F.state files.new) result }
{
    let checked = check_with(alloc, files, program, config);
    setup_check_text(alloc, checked)
}
