// What is printed on a sink.
ghost use Rattle.std.specs.Prelude.{◌≡◌, ◌≤◌, ◌++◌, ◌∷◌, [], IfOk, Err};
ghost use Rattle.lt_io.specs.Counts.{MayFail};
ghost use Rattle.lt_arch.specs.declared.limits.TheConstants.{GREATEST_TIME};
ghost use Rattle.lt_base.specs.declared.memory.Or.TheVariants.{Memory as Wanting};
ghost use Rattle.lt_io.specs.declared.fault.SinkErr.TheVariants.{Memory as SinkWanting};
ghost use Rattle.lt_text_answers.specs.Texts.{refusal_line};
ghost use Rattle.lt_cli.specs.Drawing.{RecordsDrawn, DrawsShown};
ghost use Rattle.lt_cli.specs.Objects.{KeepsSteady};
ghost use Rattle.lt_cli.specs.Written.{PrintsText};

use lt_base::{List, Memory, Or};
use lt_io::{Sink, SinkErr, write_all};
use lt_load::Loaded;
use lt_net_replay::laws::networks_are_sound;
use lt_sim::{SimFault, record};
use lt_text_answers::Refusal;
use std::alloc::Global;

/// A sink that a call prints on. No state shows that memory was wanting, so `short` says that one of these functions answered so:
/// code that is generic in the sink has it from their answers alone.
pub trait Printer: Sink {
    ghost short: { Type 0 };

    /// Prints a text.
    fn print_text(&mut self, text: &List<u8>) -> Result<(), SinkErr>
        requires { MayFail (Self.state self.old).faults }
        ensures prints { PrintsText text.now (Self.state self.old) (Self.state self.new) result }
        ensures short { result ≡ Err SinkWanting → short };

    /// Prints a refusal's line.
    fn print_line(&mut self, alloc: Global, refusal: &Refusal) -> Result<(), SinkErr>
        requires { MayFail (Self.state self.old).faults }
        ensures prints { PrintsText (refusal_line refusal.now ++ 10 ∷ []) (Self.state self.old) (Self.state self.new) result }
        ensures short { result ≡ Err SinkWanting → short };

    /// Prints the schedule of what was loaded, as it is drawn. It is not held in memory.
    fn print_drawn(
        &mut self,
        alloc: Global,
        loaded: &Loaded,
        seed: u64,
        horizon: u64,
    ) -> Result<u64, Or<SimFault>>
        requires count { MayFail (Self.state self.old).faults }
        requires horizon { horizon ≤ GREATEST_TIME }
        ensures records { RecordsDrawn loaded.now seed horizon (Self.state self.old) (Self.state self.new) result }
        ensures shown { DrawsShown loaded.now seed horizon }
        ensures keeps { KeepsSteady (Self.state self.old) (Self.state self.new) }
        ensures short { result ≡ Err Wanting → short };
}

impl<S: Sink> Printer for S {
    ghost short = { Unit {0} };

    fn print_text(&mut self, text: &List<u8>) -> Result<(), SinkErr> {
        write_all(self, text)
    }

    fn print_line(&mut self, alloc: Global, refusal: &Refusal) -> Result<(), SinkErr> {
        let line = whole_line(alloc, refusal)?;
        write_all(self, &line)
    }

    fn print_drawn(
        &mut self,
        alloc: Global,
        loaded: &Loaded,
        seed: u64,
        horizon: u64,
    ) -> Result<u64, Or<SimFault>> {
        loaded.invariant_holds();
        networks_are_sound();
        record(
            alloc,
            &loaded.shape,
            &loaded.timing,
            loaded.inputs.rows(),
            seed,
            horizon,
            self,
        )
    }
}

// The refusal's line with its line feed.
fn whole_line(alloc: Global, refusal: &Refusal) -> Result<List<u8>, Memory>
    ensures { IfOk result (λ line. line ≡ refusal_line refusal.now ++ 10 ∷ []) }
{
    let mut line = refusal.line(alloc)?;
    line.extend(b"\n")?;
    Ok(line)
}
