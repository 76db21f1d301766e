//! What the sessions of these tests say: a product whose price is 12 steps and which takes 9.

/// Commands that bind two matrices and two operators, whose product's price is 12.
pub const SETUP: &str = "matrix A 68
%%MatrixMarket matrix coordinate integer general
1 2 2
1 1 10
1 2 3
matrix B 67
%%MatrixMarket matrix coordinate integer general
2 1 2
1 1 1
2 1 1
asm sub binary 31
mov64 r0, r1
sub64 r0, r2
exit
asm mul binary 31
mov64 r0, r1
mul64 r0, r2
exit
";

/// The replies to them.
pub const SET_UP: &str = "ok matrix 1 2 2
ok matrix 2 1 2
ok op 3 3
ok op 3 3
";

pub const PRODUCT: &str = "product C sub mul A B\n";
