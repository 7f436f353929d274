// A tree beside a program.
ghost use Rattle.lt_front.specs.Examined.{TreeNumbersFit};

use lt_base::Program;
use lt_syntax::Tree;

/// The tree of a text beside a program: after `resolve_names` the one that it names.
#[derive(Drop)]
pub struct Named {
    pub tree: Tree,
    pub program: Program,
    ghost room: { TreeNumbersFit tree },
}
