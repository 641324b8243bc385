//! Tables of a module's own.

/// How many rows there are.
pub const COUNT: usize = 34;

/// Features, sections, the answer, and what the row shows.
pub const ROWS: &str = "
    // Own tables.
    default                     | 04 04 01 70 00 00                                        | yes           | references to functions
    all but REFERENCE_TYPES     | 04 04 01 70 00 00                                        | yes           | older than reference types
    default                     | 04 04 01 6f 00 01                                        | yes           | to the outside
    all but REFERENCE_TYPES     | 04 04 01 6f 00 01                                        | Invalid       | these are a feature
    default                     | 04 05 01 63 70 00 00                                     | yes           | written out
    default                     | 04 05 01 64 70 00 00                                     | Invalid       | no null, no initialiser
    default                     | types 04 05 01 63 00 00 00                               | yes           | of a type of the module
    default                     | 04 05 01 63 00 00 00                                     | Invalid       | of no type
    default                     | 04 04 01 7f 00 00                                        | Malformed     | numbers
    // Bounds.
    default                     | 04 05 01 70 01 01 01                                     | yes           | equal
    default                     | 04 05 01 70 01 02 01                                     | Invalid       | crossed
    default                     | 04 04 01 70 04 00                                        | yes           | 64 bits
    all but MEMORY64            | 04 04 01 70 04 00                                        | Invalid       | these are a feature
    default                     | 04 08 01 70 04 80 80 80 80 10                            | yes           | 2^32 items
    default                     | 04 05 01 70 03 01 01                                     | Malformed     | shared
    // Initialisers.
    default                     | 04 09 01 40 00 70 00 01 d0 70 0b                         | yes           | null
    all but FUNCTION_REFERENCES | 04 09 01 40 00 70 00 01 d0 70 0b                         | Invalid       | they are a feature
    default                     | types functions 04 0a 01 40 00 64 70 00 01 d2 00 0b code | yes           | a function
    default                     | types functions 04 0a 01 40 00 64 00 00 01 d2 00 0b code | yes           | a function of its type
    default                     | types functions 04 0a 01 40 00 64 70 00 01 d2 01 0b code | Invalid       | no function
    default                     | 04 0a 01 40 00 64 70 00 01 d0 70 0b                      | Invalid       | null where there is none
    default                     | 04 09 01 40 00 70 00 01 41 00 0b                         | Invalid       | a number
    default                     | 04 07 01 40 00 70 00 01 0b                               | Invalid       | nothing
    default                     | 04 08 01 40 00 70 00 01 d0 70                            | Malformed     | no end
    default                     | 04 09 01 40 01 70 00 01 d0 70 0b                         | Malformed     | another byte than 0
    default                     | 02 06 01 00 00 03 70 00 04 09 01 40 00 70 00 01 23 00 0b | yes           | an imported constant
    default                     | 02 06 01 00 00 03 70 01 04 09 01 40 00 70 00 01 23 00 0b | Invalid       | an imported variable
    // Several.
    default                     | 04 07 02 70 00 00 70 00 00                               | yes           | two
    all but REFERENCE_TYPES     | 04 07 02 70 00 00 70 00 00                               | Invalid       | they are a feature
    default                     | 02 07 01 00 00 01 70 00 00 04 04 01 70 00 00             | yes           | an imported one
    all but REFERENCE_TYPES     | 02 07 01 00 00 01 70 00 00 04 04 01 70 00 00             | Invalid       | with it there are two
    default                     | 04 ad 02 64 700000*100                                   | yes           | 100
    default                     | 04 b0 02 65 700000*101                                   | Limit(Tables) | 101
    default                     | 02 07 01 00 00 01 70 00 00 04 ad 02 64 700000*100        | Limit(Tables) | an imported one and 100
";
