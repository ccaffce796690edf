// Texts of proofs by branches, and the small file that they are of.

/// One integer variable from 0 to 5, of which the double is at least 3; least is its value.
pub const ONE_WHOLE: &str =
    "g3 1 1 0\n1 1 1 0 0\n0 0\n0 0\n0 0 0\n0 0 0 1\n0 1 0 0 0\n1 1\n0 0\n0 0 0 0 0\nO0 0\nn0\nr\n2 3\nb\n0 0 5\nJ0 1\n0 2\nG0 1\n0 1\n";

/// That no whole number below 2 is feasible there.
pub const TWO_LEAVES: &str = "proof 1\nvalue 0 2\nsplit 0 1\nweights 1\n0 1\nduals 0\n";
