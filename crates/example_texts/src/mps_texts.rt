// Texts of MPS files.

/// Two pairs in a line, a range below 0 and an upper bound below 0.
pub const PAIRS: &str =
    "* two pairs per line\nNAME          TEST\nROWS\n N  COST\n E  R1\n L  R2\nCOLUMNS\n    X  COST  1.0  R1  2\n    X  R2  1\n    Y  COST  -3  R2  1e0\nRHS\n    R1  10  R2  7\nRANGES\n    RG  R1  -2\nBOUNDS\n UP BN X -4\nENDATA\n";

/// The written text of that program.
pub const PAIRS_WRITTEN: &str =
    "NAME TEST\nROWS\n N COST\n E R1\n L R2\nCOLUMNS\n X COST 1\n X R1 2\n X R2 1\n Y COST -3\n Y R2 1\nRHS\n RHS R1 10\n RHS R2 7\nRANGES\n RNG R1 -2\nBOUNDS\n UP BND X -4\nENDATA\n";

/// Fixed columns: a marked stretch, a right side without a set name, and a number after FR.
pub const FIXED: &str =
    "NAME          TESTFIX\nROWS\n N  COST\n L  LIM1\nCOLUMNS\n    M1        'MARKER'                 'INTORG'\n    X         COST               1.0   LIM1               2.0\n    M2        'MARKER'                 'INTEND'\n    Y         COST              -3.0\nRHS\n              LIM1               7.0\nBOUNDS\n FR           Y                  0.0\nENDATA\n";

/// The written text of that program.
pub const FIXED_WRITTEN: &str =
    "NAME TESTFIX\nROWS\n N COST\n L LIM1\nCOLUMNS\n M0 'MARKER' 'INTORG'\n X COST 1\n X LIM1 2\n M1 'MARKER' 'INTEND'\n Y COST -3\nRHS\n RHS LIM1 7\nBOUNDS\n FR BND Y\nENDATA\n";

/// A whole column in the second of two constraints, a column in the first, and a second N row.
pub const WHOLE_IN_TWO: &str =
    "ROWS\n N COST\n L ONE\n N OTHER\n G TWO\nCOLUMNS\n M0 'MARKER' 'INTORG'\n X COST 1 OTHER 5\n X TWO 2\n M1 'MARKER' 'INTEND'\n Y ONE 1\nRHS\n RHS TWO 3\nBOUNDS\n UP BND X 5\nENDATA\n";
