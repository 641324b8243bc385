//! Data segments and data counts.

/// How many rows there are.
pub const COUNT: usize = 43;

/// Features, sections, the answer, and what the row shows.
pub const ROWS: &str = "
    // Data segments: bytes that are put into a memory.
    default                | 05 03 01 00 01 0b 07 01 00 41 00 0b 01 61                      | yes                 | one
    default                | 0b 07 01 00 41 00 0b 01 61                                     | Invalid             | no memory
    default                | 02 06 01 00 00 02 00 01 0b 07 01 00 41 00 0b 01 61             | yes                 | an imported memory
    default                | 05 03 01 00 01 0b 07 01 00 41 00 0b 02 61                      | Malformed           | fewer bytes
    default                | 05 03 01 00 01 0b 07 01 02 00 41 00 0b 00                      | yes                 | the first memory by its index
    default                | 05 03 01 00 01 0b 07 01 02 01 41 00 0b 00                      | Invalid             | the second of one
    default                | 05 05 02 00 01 00 01 0b 07 01 02 01 41 00 0b 00                | yes                 | of two
    default                | 05 05 02 00 01 04 01 0b 07 01 02 01 42 00 0b 00                | yes                 | of 64 bits
    default                | 05 05 02 00 01 04 01 0b 07 01 02 01 41 00 0b 00                | Invalid             | i32 there
    // Offsets.
    default                | 05 03 01 00 01 0b 06 01 00 42 00 0b 00                         | Invalid             | i64
    default                | 05 03 01 04 01 0b 06 01 00 42 00 0b 00                         | yes                 | into a memory of 64 bits
    default                | 05 03 01 04 01 0b 06 01 00 41 00 0b 00                         | Invalid             | i32 there
    default                | 05 03 01 00 01 0b 08 01 00 41 00 41 00 0b 00                   | Invalid             | two values
    default                | 02 06 01 00 00 03 7f 00 05 03 01 00 01 0b 06 01 00 23 00 0b 00 | yes                 | an imported constant
    default                | 05 03 01 00 01 06 06 01 7f 00 41 00 0b 0b 06 01 00 23 00 0b 00 | yes                 | an own constant
    all but GC             | 05 03 01 00 01 06 06 01 7f 00 41 00 0b 0b 06 01 00 23 00 0b 00 | Invalid             | that is a feature
    default                | 05 03 01 00 01 06 06 01 7f 01 41 00 0b 0b 06 01 00 23 00 0b 00 | Invalid             | an own variable
    default                | 05 03 01 00 01 0b 09 01 00 41 01 41 02 6a 0b 00                | yes                 | a sum
    all but EXTENDED_CONST | 05 03 01 00 01 0b 09 01 00 41 01 41 02 6a 0b 00                | Invalid             | that is one
    // Passive ones.
    default                | 0b 04 01 01 01 61                                              | yes                 | passive
    all but BULK_MEMORY    | 0b 04 01 01 01 61                                              | Invalid             | they are a feature
    default                | 0b 03 01 03 00                                                 | Malformed           | another kind
    default                | 0b c3 9a 0c a0 8d 06 0100*100000                               | yes                 | 100,000
    default                | 0b c5 9a 0c a1 8d 06 0100*100001                               | Limit(DataSegments) | one more
    // Data counts, and as many segments, more or fewer.
    default                | 0c 01 01 0b 03 01 01 00                                        | yes                 | one of one
    default                | 05 03 01 00 01 0c 01 01 0b 03 01 01 00                         | yes                 | beside a memory
    default                | 05 03 01 00 01 0c 01 02 0b 03 01 01 00                         | Malformed           | one less there
    default                | 0c 01 00 0b 03 01 01 00                                        | Malformed           | one more
    default                | 0c 01 02 0b 03 01 01 00                                        | Malformed           | one less
    default                | 0c 01 01 0b 05 02 01 00 01 00                                  | Malformed           | two
    default                | 0b 03 01 01 00                                                 | yes                 | no count
    default                | 0c 01 00                                                       | yes                 | no section of them
    default                | 0c 01 01                                                       | Malformed           | none of one
    default                | 0c 01 00 0b 01 00                                              | yes                 | none of none
    all but BULK_MEMORY    | 0c 01 00                                                       | Invalid             | counts are a feature
    default                | types functions 0c 01 00 code                                  | yes                 | beside a function
    default                | types functions 0c 01 01 code                                  | Malformed           | a function for a segment
    default                | 09 04 01 01 00 00 0c 01 01                                     | Malformed           | an element segment for one
    // Where they stand.
    default                | 09 01 00 0c 01 00 no-bodies 0b 01 00                           | yes                 | before bodies
    default                | no-bodies 0c 01 00                                             | Malformed           | after them
    default                | 0c 01 00 09 01 00                                              | Malformed           | before elements
    default                | 0c 01 00 0c 01 00                                              | Malformed           | twice
    default                | 0c 02 00 00                                                    | Malformed           | a byte more
";
