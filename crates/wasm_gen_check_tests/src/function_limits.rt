//! The limits on types, functions and bodies.

/// How many rows there are.
pub const COUNT: usize = 20;

/// Features, sections, and the answer.
pub const ROWS: &str = "
    // 50,000 locals in one run and in two, and one more.
    default | types functions 0a 09 01 07 01 d0 86 03 7f 00 0b       | yes
    default | types functions 0a 09 01 07 01 d1 86 03 7f 00 0b       | Limit(Locals)
    default | types functions 0a 0a 01 08 02 cf 86 03 7f 01 7e 0b    | yes
    default | types functions 0a 0a 01 08 02 cf 86 03 7f 02 7e 0b    | Limit(Locals)
    // Two runs of 2^32 - 1.
    default | types functions 0a 10 01 0e 02 ff ff ff ff 0f 7f ff ff ff ff 0f 7f 0b | Limit(Locals)
    // 49,000 and 49,001 locals after 1,000 parameters.
    default | 01 ed 07 01 60 e8 07 7f*1000 00 functions 0a 08 01 06 01 e8 fe 02 7f 0b | yes
    default | 01 ed 07 01 60 e8 07 7f*1000 00 functions 0a 08 01 06 01 e9 fe 02 7f 0b | Limit(Locals)
    // 1,000 parameters and results, and one more.
    default | 01 ed 07 01 60 e8 07 7f*1000 00              | yes
    default | 01 ed 07 01 60 00 e8 07 7f*1000              | yes
    default | 01 d6 0f 01 60 e8 07 7f*1000 e8 07 7f*1000   | yes
    default | 01 ee 07 01 60 e9 07 7f*1001 00              | Limit(Params)
    default | 01 ee 07 01 60 00 e9 07 7f*1001              | Limit(Results)
    // A body of 7,654,321 bytes, of operators that do nothing, and of one more.
    default | types functions 0a b6 97 d3 03 01 b1 97 d3 03 00 01*7654319 0b | yes
    default | types functions 0a b7 97 d3 03 01 b2 97 d3 03 00 01*7654320 0b | Limit(BodySize)
    // 1,000,000 functions, one more, and so many that aren't there.
    default | types 03 c3 84 3d c0 84 3d 00*1000000 0a c3 8d b7 01 c0 84 3d 02000b*1000000 | yes
    default | types 03 c4 84 3d c1 84 3d 00*1000001 0a c6 8d b7 01 c1 84 3d 02000b*1000001 | Limit(Functions)
    default | types 03 03 c1 84 3d                         | Malformed
    // 1,000,000 groups of one type, one more, and so many that aren't there.
    default | 01 c3 8d b7 01 c0 84 3d 600000*1000000       | yes
    default | 01 c6 8d b7 01 c1 84 3d 600000*1000001       | Limit(Groups) or Limit(Types)
    default | 01 03 c1 84 3d                               | Malformed
";
