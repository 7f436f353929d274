// A step's fault as that of the command.
ghost use Rattle.std.specs.Prelude.{◌≡◌, Ok, MatchResult, IsErrAnd};
ghost use Rattle.std.specs.Result.{ForErr};
ghost use Rattle.lt_base.specs.Or.{ForFault, MapsFault};

use lt_base::Or;

/// A step's answer, its fault changed to that of the command.
pub(crate) fn raise_fault<T, E, G, M: FnOnce(E) -> G>(
    answer: Result<T, Or<E>>,
    change: M,
) -> Result<T, Or<G>>
    requires { ForErr answer (λ e. ForFault e (M.pre change)) }
    ensures { MatchResult answer (λ x. result ≡ Ok x) (λ e. IsErrAnd result (λ g. MapsFault e g (M.post change))) }
{
    match answer {
        Ok(value) => Ok(value),
        Err(e) => Err(e.map(change)),
    }
}
