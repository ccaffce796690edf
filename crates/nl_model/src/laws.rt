// Laws of nodes and trees.
ghost use Rattle.std.specs.Prelude.{◌≡◌, ℕ, List, [], ◌∷◌};
ghost use Rattle.code_tables.specs.Opcodes.{class_of};
ghost use Rattle.code_tables.specs.declared.class.OpClass.{OpClass};
ghost use Rattle.code_tables.specs.declared.class.OpClass.TheVariants.{Refused};
ghost use Rattle.nl_model.specs.Trees.{Tree};
ghost use Rattle.nl_model.specs.Nodes.{IsPrefix, opcode_of, trees_of};
ghost use Rattle.nl_model.specs.declared.node.Node.{Node};

/// The nodes of a tree are that tree.
pub fn nodes_are_their_tree()
    ensures { (t : Tree) (nodes : List Node) → IsPrefix t nodes → trees_of nodes ≡ t ∷ [] }
{}

/// A tree has one list of nodes.
pub fn a_tree_has_one_list_of_nodes()
    ensures { (t : Tree) (nodes others : List Node) → IsPrefix t nodes → IsPrefix t others
        → nodes ≡ others }
{}

/// Each class but the refused one has one opcode.
pub fn classes_have_one_opcode()
    ensures class { (c : OpClass) → class_of (opcode_of c) ≡ c }
    ensures opcode { (o : ℕ) → (class_of o ≡ Refused → ⊥) → opcode_of (class_of o) ≡ o }
{}
