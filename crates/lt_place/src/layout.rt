// A function on its nodes.

ghost use Rattle.std.specs.Prelude.{◌≡◌, IfOk};

use lt_base::{Duplicate, List, Memory, Name};
use lt_norm::Flat;
use lt_place_reads::Crossing;

/// What an input of a part is: an input of `main`, by its number, or a crossing, by its place in the list of all.
#[derive(Clone, Copy, Debug, PartialEq, Eq)]
pub enum Feed {
    Input(u32),
    Cross(u32),
}

/// What one node runs: its equations without its crossings, whose readers are inputs. Its `origin` gives each variable's number in
/// the whole function, `feeds` says what each input is, and `outs` are the variables that it gives out, by their numbers in the
/// whole; the function has them as its outputs.
#[derive(Drop)]
pub struct Part {
    pub flat: Flat,
    pub feeds: List<Feed>,
    pub outs: List<u32>,
}

/// The nodes by name, what each of them runs, the crossings in order of their readers, and the outputs of `main`.
#[derive(Drop)]
pub struct Layout {
    pub names: List<Name>,
    pub nodes: List<Part>,
    pub cross: List<Crossing>,
    pub outs: List<u32>,
}

impl Duplicate for Feed {
    fn duplicate(&self) -> Result<Feed, Memory> {
        Ok(*self)
    }
}

impl Part {
    /// An equal part.
    pub fn copy(&self) -> Result<Part, Memory>
        ensures { IfOk result (λ copy. copy ≡ self.now) }
    {
        let outs = self.outs.copy()?;
        let feeds = self.feeds.copy()?;
        let flat = self.flat.copy()?;
        Ok(Part { flat, feeds, outs })
    }
}

impl Duplicate for Part {
    fn duplicate(&self) -> Result<Part, Memory> {
        self.copy()
    }
}

impl Layout {
    /// An equal layout.
    pub fn copy(&self) -> Result<Layout, Memory>
        ensures { IfOk result (λ copy. copy ≡ self.now) }
    {
        Ok(Layout {
            names: self.names.copy()?,
            nodes: self.nodes.copy()?,
            cross: self.cross.copy()?,
            outs: self.outs.copy()?,
        })
    }
}
