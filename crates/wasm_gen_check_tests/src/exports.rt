//! Exports.

/// How many rows there are.
pub const COUNT: usize = 53;

/// Features, sections, the answer, and what the row shows.
pub const ROWS: &str = "
    // An item of each kind, and one that isn't there.
    default                | types functions 07 05 01 01 61 00 00 code                            | yes         | a function
    default                | types functions 07 05 01 01 61 00 01 code                            | Invalid     | no second one
    default                | types 02 05 01 00 00 00 00 07 05 01 01 61 00 00                      | yes         | an imported function
    default                | types 02 05 01 00 00 00 00 functions 07 05 01 01 61 00 01 code       | yes         | the module's own after it
    default                | 04 04 01 70 00 00 07 05 01 01 61 01 00                               | yes         | a table
    default                | 04 04 01 70 00 00 07 05 01 01 61 01 01                               | Invalid     | no second one
    default                | 05 03 01 00 01 07 05 01 01 61 02 00                                  | yes         | a memory
    default                | 05 03 01 00 01 07 05 01 01 61 02 01                                  | Invalid     | no second one
    default                | 06 06 01 7f 00 41 00 0b 07 05 01 01 61 03 00                         | yes         | a global
    default                | 06 06 01 7f 00 41 00 0b 07 05 01 01 61 03 01                         | Invalid     | no second one
    default                | types 0d 03 01 00 00 07 05 01 01 61 04 00                            | yes         | a tag
    default                | types 0d 03 01 00 00 07 05 01 01 61 04 01                            | Invalid     | no second one
    default                | 05 03 01 00 01 07 05 01 01 61 05 00                                  | Malformed   | no such kind
    default                | 05 03 01 00 01 07 05 01 01 61 01 00                                  | Invalid     | an item of another kind
    // Variables.
    default                | 06 06 01 7f 01 41 00 0b 07 05 01 01 61 03 00                         | yes         | a variable
    all but MUTABLE_GLOBAL | 06 06 01 7f 01 41 00 0b 07 05 01 01 61 03 00                         | Invalid     | that is a feature
    all but MUTABLE_GLOBAL | 06 06 01 7f 00 41 00 0b 07 05 01 01 61 03 00                         | yes         | a constant is none
    all but MUTABLE_GLOBAL | 02 06 01 00 00 03 7f 00 06 06 01 7f 01 41 00 0b 07 05 01 01 61 03 00 | yes         | the imported one
    all but MUTABLE_GLOBAL | 02 06 01 00 00 03 7f 00 06 06 01 7f 01 41 00 0b 07 05 01 01 61 03 01 | Invalid     | the variable after it
    // Names.
    default                | 05 03 01 00 01 07 01 00                                              | yes         | none
    default                | 05 03 01 00 01 07 04 01 00 02 00                                     | yes         | the empty one
    default                | 05 03 01 00 01 07 09 02 01 61 02 00 01 62 02 00                      | yes         | two of one item
    default                | 05 03 01 00 01 07 09 02 01 61 02 00 01 61 02 00                      | Invalid     | one twice
    default                | 05 03 01 00 01 07 07 02 00 02 00 00 02 00                            | Invalid     | the empty one twice
    default                | 05 03 01 00 01 07 0a 02 01 61 02 00 02 61 62 02 00                   | yes         | one that begins another
    default                | types functions 05 03 01 00 01 07 09 02 01 61 02 00 01 61 00 00 code | Invalid     | of two kinds
    default                | 05 03 01 00 01 07 0d 03 01 61 02 00 01 62 02 00 01 61 02 00          | Invalid     | the first again
    default                | 05 03 01 00 01 07 05 01 01 ff 02 00                                  | Malformed   | no UTF-8
    default                | 05 03 01 00 01 07 05 01 81 00 61 02                                  | Malformed   | no index
    default                | 05 03 01 00 01 07 06 01 81 00 61 02 00                               | yes         | a padded length
    default                | 05 03 01 00 01 07 09 02 01 61 02 00 01 62 02 01                      | Invalid     | the second names nothing
    default                | 05 03 01 00 01 07 a6 8d 06 01 a0 8d 06 61*100000 02 00               | yes         | 100,000 bytes
    default                | 05 03 01 00 01 07 a7 8d 06 01 a1 8d 06 61*100001 02 00               | Limit(Name) | one more
    // Names out of order.
    default                | 05 03 01 00 01 07 09 02 01 62 02 00 01 61 02 00                      | yes         | the second before the first
    default                | 05 03 01 00 01 07 0d 03 01 62 02 00 01 61 02 00 01 61 02 00          | Invalid     | the last twice
    default                | 05 03 01 00 01 07 0d 03 01 62 02 00 01 61 02 00 01 62 02 00          | Invalid     | the first again
    default                | 05 03 01 00 01 07 11 04 01 61 02 00 01 63 02 00 01 62 02 00 01 63 02 00 | Invalid     | the last of those in order again
    default                | 05 03 01 00 01 07 11 04 01 61 02 00 01 63 02 00 01 62 02 00 01 64 02 00 | yes         | one after all
    default                | 05 03 01 00 01 07 15 05 01 61 02 00 01 63 02 00 01 62 02 00 01 64 02 00 01 64 02 00 | Invalid     | that one twice
    default                | 05 03 01 00 01 07 0a 02 02 61 62 02 00 01 61 02 00                   | yes         | one that begins the one before
    default                | 05 03 01 00 01 07 0f 03 02 61 62 02 00 01 61 02 00 02 61 62 02 00    | Invalid     | that one again
    default                | 05 03 01 00 01 07 08 02 01 61 02 00 00 02 00                         | yes         | the empty one last
    default                | 05 03 01 00 01 07 0b 03 01 61 02 00 00 02 00 00 02 00                | Invalid     | the empty one twice
    // Two names that have the same hash in so small a section.
    default                | 05 03 01 00 01 07 1d 02 0b 68 72 45 58 35 5a 32 6f 4b 54 37 02 00 0b 2d 57 70 57 49 31 37 47 6d 71 37 02 00 | yes         | out of order
    default                | 05 03 01 00 01 07 1d 02 0b 2d 57 70 57 49 31 37 47 6d 71 37 02 00 0b 68 72 45 58 35 5a 32 6f 4b 54 37 02 00 | yes         | in order
    default                | 05 03 01 00 01 07 21 03 01 7a 02 00 0b 2d 57 70 57 49 31 37 47 6d 71 37 02 00 0b 68 72 45 58 35 5a 32 6f 4b 54 37 02 00 | yes         | after another
    default                | 05 03 01 00 01 07 2b 03 0b 68 72 45 58 35 5a 32 6f 4b 54 37 02 00 0b 2d 57 70 57 49 31 37 47 6d 71 37 02 00 0b 2d 57 70 57 49 31 37 47 6d 71 37 02 00 | Invalid     | the last twice
    default                | 05 03 01 00 01 07 2b 03 0b 68 72 45 58 35 5a 32 6f 4b 54 37 02 00 0b 2d 57 70 57 49 31 37 47 6d 71 37 02 00 0b 68 72 45 58 35 5a 32 6f 4b 54 37 02 00 | Invalid     | the first again
    // Sections around them.
    default                | 05 03 01 00 01 07 05 01 01 61 02 00 04 04 01 70 00 00                | Malformed   | a table after
    default                | 05 03 01 00 01 07 05 02 01 61 02 00                                  | Malformed   | fewer than stated
    default                | 05 03 01 00 01 07 06 01 01 61 02 00 00                               | Malformed   | a byte after
    default                | 05 03 01 00 01 07 05 01 01 61 02 00 07 05 01 01 62 02 00             | Malformed   | a second section
    default                | 05 03 01 00 01 07 02 00 00                                           | Malformed   | a byte after none
";
