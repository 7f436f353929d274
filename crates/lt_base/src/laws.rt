// What holds of every program, as contracts of functions that do nothing.

ghost use Rattle.lt_base.specs.Behaviour.{ChecksGiveOneBehaviour, CallsHaveOneAnswer, StreamsGrowOnly, CausalByRanks, SizesAddUp};

/// A program that passes the checks of names, types, clocks and causality has exactly one behaviour, whatever its inputs:
/// at every instant each variable that is present has one value, of its type, and no other values let all equations hold.
pub fn one_behaviour()
    ensures { ChecksGiveOneBehaviour }
{}

/// In a program without recursion a call answers what the called function means on the arguments' values, and nothing else could.
pub fn one_answer()
    ensures { CallsHaveOneAnswer }
{}

/// Inputs that come later change no earlier value of a stream.
pub fn streams_grow()
    ensures { StreamsGrowOnly }
{}

/// No closed walk of dependencies is the same as an order of the equations.
pub fn causal_by_ranks()
    ensures { CausalByRanks }
{}

/// A function's sizes are its own variables, delays and expression parts, and the sizes of the functions that it calls.
pub fn sizes_add_up()
    ensures { SizesAddUp }
{}
