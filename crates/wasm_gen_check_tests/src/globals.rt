//! Globals of a module's own.

/// How many rows there are.
pub const COUNT: usize = 57;

/// Features, sections, the answer, and what the row shows.
pub const ROWS: &str = "
    // Numbers and vectors, each with an initialiser of its type and of another one.
    default                 | 06 06 01 7f 00 41 00 0b                                        | yes       | i32
    default                 | 06 06 01 7f 00 42 00 0b                                        | Invalid   | from i64
    default                 | 06 06 01 7e 00 42 00 0b                                        | yes       | i64
    default                 | 06 06 01 7e 00 41 00 0b                                        | Invalid   | from i32
    default                 | 06 09 01 7d 00 43 00*4 0b                                      | yes       | f32
    default                 | 06 0d 01 7d 00 44 00*8 0b                                      | Invalid   | from f64
    all but FLOATS          | 06 09 01 7d 00 43 00*4 0b                                      | Invalid   | floats are a feature
    default                 | 06 0d 01 7c 00 44 00*8 0b                                      | yes       | f64
    default                 | 06 09 01 7c 00 43 00*4 0b                                      | Invalid   | from f32
    default                 | 06 16 01 7b 00 fd 0c 00*16 0b                                  | yes       | v128
    default                 | 06 06 01 7b 00 41 00 0b                                        | Invalid   | from i32
    all but SIMD            | 06 16 01 7b 00 fd 0c 00*16 0b                                  | Invalid   | vectors are a feature
    // Variables, and what is no initialiser.
    default                 | 06 06 01 7f 01 41 00 0b                                        | yes       | a variable
    all but MUTABLE_GLOBAL  | 06 06 01 7f 01 41 00 0b                                        | yes       | of the module alone
    default                 | 06 06 01 7f 02 41 00 0b                                        | Malformed | neither
    default                 | 06 04 01 7f 00 0b                                              | Invalid   | nothing
    default                 | 06 08 01 7f 00 41 00 41 00 0b                                  | Invalid   | two values
    default                 | 06 05 01 7f 00 41 00                                           | Malformed | no end
    default                 | 06 05 01 7f 00 01 0b                                           | Malformed | an operator that is not constant
    // Reads of other globals.
    default                 | 06 06 01 7f 00 23 00 0b                                        | Invalid   | itself
    default                 | 06 0b 02 7f 00 41 00 0b 7f 00 23 00 0b                         | yes       | the one before
    all but GC              | 06 0b 02 7f 00 41 00 0b 7f 00 23 00 0b                         | Invalid   | that is a feature
    default                 | 06 0b 02 7f 01 41 00 0b 7f 00 23 00 0b                         | Invalid   | a variable before
    default                 | 06 0b 02 7f 00 23 01 0b 7f 00 41 00 0b                         | Invalid   | the one after
    default                 | 02 06 01 00 00 03 7f 00 06 06 01 7f 00 23 00 0b                | yes       | an imported one
    all but GC              | 02 06 01 00 00 03 7f 00 06 06 01 7f 00 23 00 0b                | yes       | that is none
    default                 | 02 06 01 00 00 03 7f 01 06 06 01 7f 00 23 00 0b                | Invalid   | an imported variable
    default                 | 02 06 01 00 00 03 7e 00 06 06 01 7f 00 23 00 0b                | Invalid   | one of another type
    // Sums, differences and products.
    default                 | 06 09 01 7f 00 41 01 41 02 6a 0b                               | yes       | a sum
    all but EXTENDED_CONST  | 06 09 01 7f 00 41 01 41 02 6a 0b                               | Invalid   | they are a feature
    default                 | 06 0c 01 7f 00 41 01 41 02 6b 41 03 6c 0b                      | yes       | a product of a difference
    default                 | 06 0f 01 7e 00 42 01 42 02 7c 42 03 7d 42 04 7e 0b             | yes       | the same of i64
    default                 | 06 09 01 7f 00 42 01 42 02 6a 0b                               | Invalid   | of i64 as i32
    default                 | 06 07 01 7f 00 41 01 6a 0b                                     | Invalid   | of one number
    // References.
    default                 | 06 06 01 70 00 d0 70 0b                                        | yes       | null
    all but REFERENCE_TYPES | 06 06 01 70 00 d0 70 0b                                        | Invalid   | they are a feature
    default                 | 06 06 01 70 00 d0 6f 0b                                        | Invalid   | null of another kind
    default                 | 06 07 01 64 70 00 d0 70 0b                                     | Invalid   | null where there is none
    default                 | types functions 06 07 01 64 70 00 d2 00 0b code                | yes       | a function
    default                 | types functions 06 07 01 64 00 00 d2 00 0b code                | yes       | a function of its type
    default                 | types functions 06 07 01 64 70 00 d2 01 0b code                | Invalid   | no function
    default                 | types functions 06 07 01 64 01 00 d2 00 0b code                | Invalid   | of no type
    // Structures, arrays and scalars.
    default                 | 01 05 01 5f 01 7f 00 06 0a 01 64 00 00 41 01 fb 00 00 0b       | yes       | a structure
    default                 | 01 05 01 5f 01 7f 00 06 0a 01 64 00 00 42 01 fb 00 00 0b       | Invalid   | of another field
    default                 | 01 05 01 5f 01 7f 00 06 08 01 64 00 00 fb 00 00 0b             | Invalid   | of no field
    default                 | 01 05 01 5f 01 7f 00 06 08 01 64 00 00 fb 01 00 0b             | yes       | of zeros
    default                 | 01 04 01 5e 7f 00 06 0d 01 64 00 00 41 01 41 02 fb 08 00 02 0b | yes       | an array of two
    default                 | 01 04 01 5e 7f 00 06 0b 01 64 00 00 41 01 fb 08 00 02 0b       | Invalid   | of one
    default                 | 01 04 01 5e 7f 00 06 0c 01 64 00 00 41 01 41 02 fb 06 00 0b    | yes       | of an item so many times
    default                 | 01 04 01 5e 7f 00 06 0a 01 64 00 00 41 02 fb 07 00 0b          | yes       | of so many zeros
    default                 | 01 05 01 5f 01 7f 00 06 09 01 64 00 00 fb 08 00 00 0b          | Invalid   | a structure as an array
    default                 | 06 09 01 64 6c 00 41 01 fb 1c 0b                               | yes       | a scalar
    all but GC              | 06 08 01 6e 00 41 01 fb 1c 0b                                  | Invalid   | a feature
    default                 | 06 08 01 6e 00 41 01 fb 1c 0b                                  | yes       | a scalar as any
    default                 | 06 08 01 6e 00 d0 6f fb 1a 0b                                  | yes       | from outside
    default                 | 06 09 01 64 6e 00 d0 6f fb 1a 0b                               | Invalid   | null from outside
    // Many.
    default                 | 06 8a 27 e8 07 7f0041000b*1000                                 | yes       | 1,000
";
