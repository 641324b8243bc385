//! Type, function and code sections.

/// How many rows there are.
pub const COUNT: usize = 59;

/// Features, sections, and the answer.
pub const ROWS: &str = "
    // Sections come once, and in order.
    default | no-functions types                       | Malformed
    default | types no-bodies no-functions             | Malformed
    default | types code functions                     | Malformed
    default | no-bodies types                          | Malformed
    default | types functions code types               | Malformed
    default | no-types no-types                        | Malformed
    default | types types functions code               | Malformed
    default | types functions functions two-bodies     | Malformed
    default | types two-functions code code            | Malformed
    // Each function has a body.
    default | types functions no-bodies                | Malformed
    default | types no-functions code                  | Malformed
    default | types two-functions code                 | Malformed
    default | types functions two-bodies               | Malformed
    default | types functions                          | Malformed
    default | types code                               | Malformed
    default | code                                     | Malformed
    default | types two-functions two-bodies           | yes
    default | types                                    | yes
    default | no-types no-functions no-bodies          | yes
    default | no-functions no-bodies                   | yes
    default | types no-functions                       | yes
    default | types no-bodies                          | yes
    // The size of a section is padded to five bytes, and to six.
    default | 01 84 80 80 80 00 01 60 00 00            | yes
    default | 01 84 80 80 80 80 00 01 60 00 00         | Malformed
    // Unused bits of a size, and of a number in a body, which are zero or the sign, and aren't.
    default | 01 84 80 80 80 10 01 60 00 00            | Malformed
    default | types functions 0a 0b 01 09 00 41 ff ff ff ff 7f 1a 0b | yes
    default | types functions 0a 0b 01 09 00 41 ff ff ff ff 0f 1a 0b | Body
    // A sum of 64 bits of what is unknown and a number of 32.
    default | types functions 0a 09 01 07 00 00 41 00 7c 1a 0b | Body
    // A body names a function that an export names too, or none does.
    default | types functions 07 05 01 01 66 00 00 0a 07 01 05 00 d2 00 1a 0b | yes
    default | types functions 0a 07 01 05 00 d2 00 1a 0b | Body
    // As many items of an array as a number can say, where no code is reached.
    default | 01 09 02 5e 7f 00 60 00 01 64 00 03 02 01 01 0a 16 01 14 00 00 fb 08 00 ff ff ff ff 0f 00 fb 08 00 ff ff ff ff 0f 0b | yes
    // Custom sections come anywhere.
    default | custom types custom custom functions custom code custom | yes
    // A type that is written out.
    default | 01 86 80 80 80 00 01 4f 00 60 00 00 functions code | yes
    // The index of a type is in range.
    default | two-types 03 02 01 01 code               | yes
    default | types 03 02 01 01 code                   | Invalid
    default | types 03 06 01 ff ff ff ff 0f code       | Invalid
    default | no-types functions code                  | Invalid
    default | functions code                           | Invalid

    // A byte after the entries, an entry that its section cuts, no number of entries.
    default | 01 05 01 60 00 00 00                     | Malformed
    default | 01 04 02 60 00 00                        | Malformed
    default | 01 00                                    | Malformed
    default | types 03 02 00 00                        | Malformed
    default | types 03 02 01 80                        | Malformed
    default | types functions 0a 02 00 0b              | Malformed
    // A body that passes its section.
    default | types functions 0a 04 01 03 00 0b        | Malformed

    // No type: a final type of a final type.
    default | 01 08 01 4f 00 4f 00 60 00 00            | Malformed

    // Final function types without supertypes, whose number may be padded.
    all | 01 06 01 4f 00 60 00 00                      | yes
    all | 01 07 01 4f 80 00 60 00 00                   | yes
    // References that may be null.
    all | 01 06 01 60 01 63 70 00                      | yes
    all | 01 06 01 60 00 01 63 6f                      | yes
    all | 01 09 01 4f 00 60 01 63 69 01 7f             | yes
    // Long forms ask for the same flags as short ones.
    all but REFERENCE_TYPES | 01 06 01 60 01 63 70 00  | Invalid
    all but GC              | 01 06 01 4f 00 60 00 00  | yes
    // Several results ask for a flag; one result and several parameters don't.
    all                     | 01 05 01 60 00 01 7f     | yes
    all but MULTI_VALUE     | 01 05 01 60 00 01 7f     | yes
    all                     | 01 06 01 60 02 7f 7f 00  | yes
    all but MULTI_VALUE     | 01 06 01 60 02 7f 7f 00  | yes
    all                     | 01 06 01 60 00 02 7f 7f  | yes
    all but MULTI_VALUE     | 01 06 01 60 00 02 7f 7f  | Invalid
";
