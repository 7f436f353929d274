// How many delays stand in a term.
ghost use Rattle.std.specs.Prelude.{◌≡◌, ◌^◌, ◌-◌, min, map};
ghost use Rattle.lt_syntax.specs.Tree.{tms};
ghost use Rattle.lt_syntax.specs.Views.{tm_of};
ghost use Rattle.lt_resolve.specs.Uses.{term_delays, argument_delays};

use lt_syntax::Term;

/// The delays in a term, cut at the greatest number: a `fby` behind an expression counts twice, a `fby` behind a literal
/// and a `->` once.
#[cycle(delays)]
pub fn delays(term: &Term) -> u64
    ensures { result ≡ min (term_delays (tm_of term.now)) (2 ^ 64 - 1) }
{
    match term {
        Term::Lit(_) => 0,
        Term::Var(_) => 0,
        Term::Un(_, a) => delays(a),
        Term::Bin(_, a, b) => delays(a).saturating_add(delays(b)),
        Term::If(c, a, b) => delays(c)
            .saturating_add(delays(a))
            .saturating_add(delays(b)),
        Term::When(a, _, _) => delays(a),
        Term::Merge(_, a, b) => delays(a).saturating_add(delays(b)),
        Term::Fby(_, a) => delays(a).saturating_add(1),
        Term::Follow(a, b) => delays(a).saturating_add(delays(b)).saturating_add(2),
        Term::Arrow(a, b) => delays(a).saturating_add(delays(b)).saturating_add(1),
        Term::Call(_, args) => argument_delays(args),
    }
}

#[cycle(delays)]
fn argument_delays(args: &[Term]) -> u64
    ensures { result ≡ min (argument_delays (tms (map tm_of args.now))) (2 ^ 64 - 1) }
{
    let mut sum = 0u64;
    'arguments: for a in args {
        sum = sum.saturating_add(delays(a));
    }
    sum
}
