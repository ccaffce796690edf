// Certificates, and the small files that they are of.

/// One continuous variable without bounds, of which the triple is at least 1; least is its value.
pub const ONE_FREE: &str =
    "g3 1 1 0\n1 1 1 0 0\n0 0\n0 0\n0 0 0\n0 0 0 1\n0 0 0 0 0\n1 1\n0 0\n0 0 0 0 0\nO0 0\nn0\nr\n2 1\nb\n3\nJ0 1\n0 3\nG0 1\n0 1\n";

/// That a third is its least value.
pub const A_THIRD: &str = "certificate 1\noptimal 0\npoint 1\n0 1/3\nduals 1\n0 1/3\n";

/// The same with a whole variable.
pub const ONE_WHOLE_FREE: &str =
    "g3 1 1 0\n1 1 1 0 0\n0 0\n0 0\n0 0 0\n0 0 0 1\n0 1 0 0 0\n1 1\n0 0\n0 0 0 0 0\nO0 0\nn0\nr\n2 1\nb\n3\nJ0 1\n0 3\nG0 1\n0 1\n";

/// That 1 is its least value: the part up to 0 closes by weights.
pub const ONE_AT_LEAST: &str =
    "certificate 1\noptimal 0\npoint 1\n0 1\nsplit 0 0\nweights 1\n0 1\nduals 0\n";

/// That 2 is a value, and none is below a third.
pub const TWO_OR_BETTER: &str = "certificate 1\nwithin 0 1/3\npoint 1\n0 2\nduals 1\n0 1/3\n";

/// Three whole variables of which the sum of 12, 21 and 33 times is 500.
pub const THIRDS: &str =
    "g3 1 1 0\n3 1 0 0 0\n0 0\n0 0\n0 0 0\n0 0 0 1\n0 3 0 0 0\n3 0\n0 0\n0 0 0 0 0\nr\n4 500\nb\n3\n3\n3\nJ0 3\n0 12\n1 21\n2 33\n";

/// That there are none, since each of these numbers is a multiple of 3.
pub const BY_PARITY: &str =
    "certificate 1\ninfeasible\nplane 3 166\n0 4\n1 7\n2 11\nweights 2\n0 1/3\n1 -1\nweights 2\n0 -1/3\n1 1\n";

/// Two variables from 0 on, the first at most 2 above the other, which is whole; greatest is their
/// sum.
pub const NO_END: &str =
    "g3 1 1 0\n2 1 1 0 0\n0 0\n0 0\n0 0 0\n0 0 0 1\n0 1 0 0 0\n2 2\n0 0\n0 0 0 0 0\nO0 1\nn0\nr\n1 2\nb\n2 0\n2 0\nJ0 2\n0 1\n1 -1\nG0 2\n0 1\n1 1\n";

/// That the sum has no end.
pub const BY_RAY: &str = "certificate 1\nunbounded 0\npoint 0\nray 2\n0 1\n1 1\n";

/// One variable from 0 to 7 that is at most ten times a binary one; greatest is its value.
pub const CHARGED: &str =
    "g3 1 1 0\n2 1 1 0 0\n0 0\n0 0\n0 0 0\n0 0 0 1\n1 0 0 0 0\n2 1\n0 0\n0 0 0 0 0\nO0 1\nn0\nr\n1 0\nb\n0 0 7\n0 0 1\nJ0 2\n0 1\n1 -10\nG0 1\n0 1\n";

/// That 7 is no less, by the lemma that it is at most seven times the binary one.
pub const BY_LEMMA: &str =
    "certificate 1\nbound 0 7\nlemma 2 0\n0 1\n1 -7\nsplit 1 0\nduals 1\n0 1\nduals 0\nduals 1\n1 1\n";
