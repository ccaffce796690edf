// What a letter and a number alone are in an expression.
ghost use Rattle.std.specs.Prelude.{List, ℕ};
ghost use Rattle.text_base.specs.Judged.{Decides};
ghost use Rattle.nl_lines.specs.Leaves.{IsLeafRow};
ghost use Rattle.nl_lines.specs.NodeRows.{IsReadAs};
ghost use Rattle.nl_lines.specs.Nodes.{node_in, opcode_in};
ghost use Rattle.nl_lines.specs.Tests.{node_form_tests};

use crate::fault::NlReason;
use crate::leaf::Leaf;
use crate::node_row::NodeRow;
use crate::nodes::{read_number, read_opcode, read_variable};
use nl_model::NlBuilder;

/// A row of an expression that is a letter and a number alone.
pub fn read_leaf_row(leaf: Leaf, builder: &NlBuilder) -> Result<NodeRow, NlReason>
    ensures { (words : List (List ℕ)) → IsLeafRow words leaf
        → Decides (node_form_tests builder.now.counts builder.now words)
        (IsReadAs (node_in builder.now.counts.n_var words) (opcode_in words)) result }
{
    match leaf {
        Leaf::Number(number) => read_number(Some(number)),
        Leaf::Variable(index) => read_variable(builder, Some(index)),
        Leaf::Opcode(opcode) => read_opcode(Some(opcode)),
    }
}
