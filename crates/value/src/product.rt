// Mulh: bits 40 to 79 of a product, worked out as on paper, in columns of 20 bits.
ghost use Rattle.std.specs.Prelude.{◌≡◌};
ghost use Rattle.value.specs.Product.{mulh_of};

// 2^20: what a column keeps is below it, and a column counts 2^20 times the one before it.
const COLUMN: u64 = 0x10_0000;

// The 64 bits of an operand are four columns, the last of four bits. Column k of the product adds every ai * bj where i + j = k,
// and the carry from column k - 1; it keeps what is below 2^20 and carries the rest. Columns 2 and 3 are the answer. With
// decimal digits for columns, 3456 by 1278 is 4416768, and the answer is 67:
//
//     column 0:  6*8                          = 48, keeps 8, carries 4
//     column 1:  6*7 + 5*8              + 4   = 86, keeps 6, carries 8
//     column 2:  6*2 + 5*7 + 4*8        + 8   = 87, keeps 7, carries 8
//     column 3:  6*1 + 5*2 + 4*7 + 3*8  + 8   = 76, keeps 6
pub fn mulh(a: u64, b: u64) -> u64
    ensures { result ≡ mulh_of a b }
{
    let a0 = a % COLUMN;
    let a1 = a / COLUMN % COLUMN;
    let a2 = a / COLUMN / COLUMN % COLUMN;
    let a3 = a / COLUMN / COLUMN / COLUMN;
    let b0 = b % COLUMN;
    let b1 = b / COLUMN % COLUMN;
    let b2 = b / COLUMN / COLUMN % COLUMN;
    let b3 = b / COLUMN / COLUMN / COLUMN;

    let column0 = a0 * b0;
    let carry1 = column0 / COLUMN;
    let column1 = a0 * b1 + a1 * b0 + carry1;
    let carry2 = column1 / COLUMN;
    let column2 = a0 * b2 + a1 * b1 + a2 * b0 + carry2;
    let carry3 = column2 / COLUMN;
    let column3 = a0 * b3 + a1 * b2 + a2 * b1 + a3 * b0 + carry3;

    column3 % COLUMN * COLUMN + column2 % COLUMN
}
