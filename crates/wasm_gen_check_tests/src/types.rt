//! Structures, arrays, groups, supertypes, and references to types of the module's own.

/// How many rows there are.
pub const COUNT: usize = 41;

/// Features, sections, and the answer.
pub const ROWS: &str = "
    // A structure, an array, a group of none, one of one, a type that isn't final, and a final structure that is written out.
    default    | 01 03 01 5f 00                              | yes
    all but GC | 01 03 01 5f 00                              | Invalid
    default    | 01 04 01 5e 7f 00                           | yes
    all but GC | 01 04 01 5e 7f 00                           | Invalid
    default    | 01 03 01 4e 00                              | yes
    all but GC | 01 03 01 4e 00                              | Invalid
    default    | 01 06 01 4e 01 60 00 00                     | yes
    default    | 01 06 01 50 00 60 00 00                     | yes
    all but GC | 01 06 01 50 00 60 00 00                     | Invalid
    default    | 01 05 01 4f 00 5f 00                        | yes
    // Packed fields, a mutability that there isn't, a packed parameter.
    default    | 01 07 01 5f 02 78 00 77 01                  | yes
    default    | 01 05 01 5f 01 78 02                        | Malformed
    default    | 01 05 01 60 01 78 00                        | Malformed
    // A type below itself, final and open, below a final type, below an open one, and below one of another kind.
    default    | 01 07 01 4f 01 00 60 00 00                  | Invalid
    default    | 01 07 01 50 01 00 60 00 00                  | Invalid
    default    | 01 0c 02 4f 00 60 00 00 4f 01 00 60 00 00   | Invalid
    default    | 01 0c 02 50 00 60 00 00 4f 01 00 60 00 00   | yes
    default    | 01 0b 02 50 00 60 00 00 4f 01 00 5f 00      | Invalid
    // Two supertypes.
    default    | 01 12 03 50 00 60 00 00 50 00 60 00 00 50 02 00 01 60 00 00 | Invalid
    // References that may not be null, or to a type of the module's own, as a parameter and as a result.
    default    | 01 06 01 60 01 64 70 00                     | yes
    all but FUNCTION_REFERENCES | 01 06 01 60 01 64 70 00    | Invalid
    default    | 01 06 01 60 01 63 00 00                     | yes
    all but GC | 01 06 01 60 01 63 00 00                     | Invalid
    default    | 01 06 01 60 01 64 00 00                     | yes
    default    | 01 06 01 60 00 01 63 00                     | yes
    default    | 01 06 01 60 00 01 64 6f                     | yes
    // A reference to the next type, apart and in one group.
    default    | 01 09 02 60 01 63 01 00 60 00 00            | Invalid
    default    | 01 0b 01 4e 02 60 01 63 01 00 60 00 00      | yes
    // A function of a structure's type.
    default    | 01 03 01 5f 00 functions code               | Invalid
    // A body of a function whose type is of a group.
    default    | 01 06 01 4e 01 60 00 00 functions code      | yes
    // Continuations: of a function type, and of a structure; null of none of them, of any of them and of one.
    all        | 01 06 02 60 00 00 5d 00                     | yes
    default    | 01 06 02 60 00 00 5d 00                     | Invalid
    all        | 01 05 02 5f 00 5d 00                        | Invalid
    default    | 01 05 02 5f 00 5d 00                        | Invalid
    all        | 06 06 01 68 00 d0 75 0b                     | yes
    default    | 06 06 01 68 00 d0 75 0b                     | Invalid
    all        | 06 06 01 75 00 d0 68 0b                     | Invalid
    default    | 06 06 01 75 00 d0 68 0b                     | Invalid
    all        | 01 06 02 60 00 00 5d 00 06 06 01 68 00 d0 01 0b | yes
    default    | 01 06 02 60 00 00 5d 00 06 06 01 68 00 d0 01 0b | Invalid
    // An index that is past every type there can be.
    default    | 01 0a 01 60 01 63 80 80 c0 80 00 00         | Invalid
";
