// `big`: a summary of a run of the large input.
ghost use Rattle.std.specs.Prelude.{◌≡◌, []};
ghost use Rattle.lt_io.specs.Counts.{MayFail};
ghost use Rattle.lt_io.specs.FabricState.{OpensOnce};
ghost use Rattle.lt_big.specs.Big.{LeavesRefused};
ghost use Rattle.lt_cli.specs.Commands.Big.{AnswersBig};

use lt_base::{List, Or};
use lt_io::Fabric;
use lt_text_answers::{Refusal, big_text};
use std::alloc::Global;

/// The summary of a run of the large input, for which no file is read.
pub(crate) fn big<W: Fabric>(
    alloc: Global,
    fabric: &mut W,
    instants: u32,
) -> Result<List<u8>, Or<Refusal>>
    requires fabric { MayFail (W.state fabric.old).faults }
    requires empty { (W.state fabric.old).kinds ≡ [] }
    ensures answers { AnswersBig instants (W.state fabric.old) (W.state fabric.new) result }
    ensures opens { OpensOnce (W.state fabric.old) (W.state fabric.new) result }
    ensures untouched { LeavesRefused instants (W.state fabric.old) (W.state fabric.new) }
{
    let found = lt_big::big(alloc, fabric, instants);
    big_text(alloc, instants, found)
}
