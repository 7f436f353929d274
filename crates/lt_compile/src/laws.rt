// What the passes give together.
ghost use Rattle.lt_compile.specs.Chain.{ChainHolds};

use lt_machine::Machine;

/// What `front`, `place_program` and `compile_nodes` answer one after another: the bytes spell a tree that names a program, which
/// passes all checks; its flat form keeps every stream of `main`; the parts of that stand on the nodes of the setup; and each node has a
/// machine whose steps show the streams of its part. It is so of machines of any kind.
pub fn chain_holds<M: Machine>(_machines: &Vec<M>)
    ensures { ChainHolds M.Machine }
{}
