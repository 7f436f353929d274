// `plan`: what follows of a setup's timing.
ghost use Rattle.lt_io.specs.Counts.{MayFail};
ghost use Rattle.lt_cli.specs.Commands.Plan.{AnswersPlan};

use lt_base::{List, Or};
use lt_io::Files;
use lt_load::load_config;
use lt_text_answers::{Refusal, plan_text};
use std::alloc::Global;

/// The plan of a setup.
pub(crate) fn plan<F: Files>(
    alloc: Global,
    files: &mut F,
    config: &str,
    horizon: Option<u64>,
) -> Result<List<u8>, Or<Refusal>>
    requires { MayFail (F.state files.old).faults }
    ensures { AnswersPlan config.now horizon (F.state files.old) (F.state files.new) result }
{
    let setup = load_config(alloc, files, config);
    plan_text(alloc, setup, horizon)
}
