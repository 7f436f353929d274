//! What holds of emitted files; nothing here is run.
ghost use Rattle.lt_c_bodies.specs.Equations.{CommentsChangeNothing};
ghost use Rattle.lt_c_node.specs.Names.{FileNamesDiffer};
ghost use Rattle.lt_c_node.specs.NodeText.{HeaderAgrees};

/// The names of a node's file that other files see differ.
pub fn file_names_differ()
    ensures { FileNamesDiffer }
{}

/// Each declaration of a node's header stands in its file, word for word.
pub fn header_agrees()
    ensures { HeaderAgrees }
{}

/// The statements of lets under their equations leave what they leave without.
pub fn comments_change_nothing()
    ensures { CommentsChangeNothing }
{}
