//! Element segments.

/// How many rows there are.
pub const COUNT: usize = 44;

/// Features, sections, the answer, and what the row shows.
pub const ROWS: &str = "
    // Element segments: functions that are put into a table.
    default                 | types functions 04 04 01 70 00 01 09 07 01 00 41 00 0b 01 00 code    | yes                    | one
    default                 | types functions 09 07 01 00 41 00 0b 01 00 code                      | Invalid                | no table
    default                 | types functions 04 04 01 70 00 01 09 07 01 00 41 00 0b 01 01 code    | Invalid                | no function
    default                 | types functions 04 04 01 70 00 01 09 08 01 00 41 00 0b 02 00 01 code | Invalid                | none after one
    default                 | types 02 05 01 00 00 00 00 functions 04 04 01 70 00 01 09 08 01 00 41 00 0b 02 00 01 code | yes                    | an imported one too
    default                 | types functions 04 04 01 6f 00 01 09 06 01 00 41 00 0b 00 code       | Invalid                | a table of others
    default                 | types functions 04 04 01 73 00 01 09 06 01 00 41 00 0b 00 code       | Invalid                | a table of no functions
    default                 | types functions 04 0a 01 40 00 64 70 00 01 d2 00 0b 09 07 01 00 41 00 0b 01 00 code | yes                    | a table without null
    // Offsets.
    default                 | 04 04 01 70 00 01 09 06 01 00 42 00 0b 00                            | Invalid                | i64
    default                 | 04 04 01 70 04 01 09 06 01 00 42 00 0b 00                            | yes                    | into a table of 64 bits
    default                 | 04 04 01 70 04 01 09 06 01 00 41 00 0b 00                            | Invalid                | i32 there
    default                 | 04 04 01 70 00 01 09 04 01 00 0b 00                                  | Invalid                | nothing
    default                 | 02 06 01 00 00 03 7f 00 04 04 01 70 00 01 09 06 01 00 23 00 0b 00    | yes                    | an imported constant
    default                 | 02 06 01 00 00 03 7f 01 04 04 01 70 00 01 09 06 01 00 23 00 0b 00    | Invalid                | an imported variable
    default                 | 04 04 01 70 00 01 06 06 01 7f 00 41 00 0b 09 06 01 00 23 00 0b 00    | yes                    | an own constant
    all but GC              | 04 04 01 70 00 01 06 06 01 7f 00 41 00 0b 09 06 01 00 23 00 0b 00    | Invalid                | that is a feature
    default                 | 04 04 01 70 00 01 09 09 01 00 41 01 41 02 6a 0b 00                   | yes                    | a sum
    all but EXTENDED_CONST  | 04 04 01 70 00 01 09 09 01 00 41 01 41 02 6a 0b 00                   | Invalid                | that is one
    // The second table.
    default                 | 04 07 02 70 00 00 70 00 00 09 08 01 02 01 41 00 0b 00 00             | yes                    | of two
    default                 | 04 07 02 70 00 00 70 00 00 09 08 01 02 02 41 00 0b 00 00             | Invalid                | the third
    default                 | 04 07 02 70 00 00 70 04 00 09 08 01 02 01 42 00 0b 00 00             | yes                    | of 64 bits
    default                 | 04 07 02 70 00 00 70 04 00 09 08 01 02 01 41 00 0b 00 00             | Invalid                | i32 there
    // Expressions.
    default                 | 04 04 01 70 00 01 09 09 01 04 41 00 0b 01 d0 70 0b                   | yes                    | null
    all but REFERENCE_TYPES | 04 04 01 70 00 01 09 09 01 04 41 00 0b 01 d0 70 0b                   | Invalid                | a feature
    default                 | 04 04 01 70 00 01 09 09 01 04 41 00 0b 01 d2 00 0b                   | Invalid                | no function
    default                 | 04 04 01 70 00 01 09 0c 01 04 41 00 0b 02 d0 70 0b 41 00 0b          | Invalid                | a number after null
    default                 | 04 04 01 70 00 01 09 0b 01 06 00 41 00 0b 6f 01 d0 6f 0b             | Invalid                | other references
    default                 | types functions 04 04 01 70 00 01 09 0c 01 06 00 41 00 0b 64 70 01 d2 00 0b code | yes                    | below the type of the table
    default                 | types functions 04 0a 01 40 00 64 70 00 01 d2 00 0b 09 0c 01 06 00 41 00 0b 64 70 01 d2 00 0b code | yes                    | that type
    default                 | types functions 04 0a 01 40 00 64 70 00 01 d2 00 0b 09 09 01 04 41 00 0b 01 d2 00 0b code | Invalid                | above it
    default                 | types 09 05 01 05 63 00 00                                           | yes                    | of a type of the module
    default                 | 09 05 01 05 63 00 00                                                 | Invalid                | of no type
    // Passive and declared ones.
    default                 | types functions 09 05 01 01 00 01 00 code                            | yes                    | passive
    all but BULK_MEMORY     | types functions 09 05 01 01 00 01 00 code                            | Invalid                | they are a feature
    default                 | types functions 09 05 01 03 00 01 00 code                            | yes                    | declared
    all but BULK_MEMORY     | types functions 09 05 01 03 00 01 00 code                            | Invalid                | so are these
    default                 | types functions 09 05 01 03 00 01 01 code                            | Invalid                | no function
    default                 | 09 0d 02 05 70 01 d0 70 0b 07 70 01 d0 70 0b                         | yes                    | of expressions
    all but BULK_MEMORY     | 09 04 01 05 70 00                                                    | Invalid                | passive
    all but BULK_MEMORY     | 09 04 01 07 70 00                                                    | Invalid                | declared
    default                 | 09 04 01 01 01 00                                                    | Malformed              | another kind of items
    default                 | 09 04 01 08 00 00                                                    | Malformed              | another kind of segments
    // Many.
    default                 | 09 e3 a7 12 a0 8d 06 010000*100000                                   | yes                    | 100,000
    default                 | 09 e6 a7 12 a1 8d 06 010000*100001                                   | Limit(ElementSegments) | one more
";
