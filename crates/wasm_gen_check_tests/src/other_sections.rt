//! Imports, memories, tags and the start function.

/// How many rows there are.
pub const COUNT: usize = 64;

/// Features, sections, and the answer.
pub const ROWS: &str = "
    // Imports, which may start a module: their types, their names, and such as aren't there. Bodies belong to a module's own functions.
    default              | types 02 05 01 00 00 00 00        | yes
    default              | 02 05 01 00 00 00 00              | Invalid
    default              | types 02 05 01 00 00 00 01        | Invalid
    default              | types 02 05 01 00 00 00 00 08 01 00 | yes
    default              | types 02 05 01 00 00 00 00 08 01 01 | Invalid
    default              | 01 05 01 60 01 7f 00 02 05 01 00 00 00 00 08 01 00 | Invalid
    default              | types 02 05 01 00 00 00 00 functions code | yes
    default              | types 02 05 01 00 00 00 00 functions | Malformed
    default              | types 02 05 01 00 00 00 00 code   | Malformed
    default              | 01 08 02 60 00 00 60 00 01 7f 02 05 01 00 00 00 01 functions 0a 04 01 02 00 0b | yes
    default              | 01 08 02 60 00 00 60 00 01 7f 02 05 01 00 00 00 00 03 02 01 01 0a 04 01 02 00 0b | Body
    default              | 02 06 01 00 00 02 00 01           | yes
    default              | 02 07 01 00 00 02 01 02 01        | Invalid
    all but MULTI_MEMORY | 02 06 01 00 00 02 00 01 05 03 01 00 01 | Invalid
    all but MUTABLE_GLOBAL | 02 06 01 00 00 03 7f 01         | Invalid
    default              | 02 a9 8d 06 01 00 a1 8d 06 61*100001 02 00 00 | Limit(Name)
    default              | 02 a8 8d 06 01 00 a0 8d 06 61*100000 02 00 00 | yes
    default              | 02 06 01 00 00 05 00 00           | Malformed
    // Groups of imports, and those of none.
    all                  | 02 0b 01 01 6d 00 7f 01 01 61 02 00 01 | yes
    all                  | types 02 05 01 00 00 00 00        | yes
    default              | 02 0b 01 01 6d 00 7f 01 01 61 02 00 01 | Malformed
    all                  | 02 0d 01 01 6d 00 7e 02 00 01 02 01 61 01 62 | yes
    default              | 02 0d 01 01 6d 00 7e 02 00 01 02 01 61 01 62 | Malformed
    all but MULTI_MEMORY | 02 0d 01 01 6d 00 7e 02 00 01 02 01 61 01 62 | Invalid
    all                  | 02 09 01 00 00 7e 02 01 02 01 00   | yes
    // Memories, their bounds, several, those of 64 bits, shared ones, page sizes, and a flag that there isn't.
    default              | 05 03 01 00 01                    | yes
    default              | 05 04 01 01 01 01                 | yes
    default              | 05 04 01 01 02 01                 | Invalid
    default              | 05 05 01 00 81 80 04              | Invalid
    default              | 05 05 01 00 80 80 04              | yes
    default              | 05 08 01 00 81 80 80 80 80 00     | yes
    default              | 05 07 01 00 80 80 80 80 10        | Invalid
    default              | 05 05 02 00 01 00 01              | yes
    all but MULTI_MEMORY | 05 05 02 00 01 00 01              | Invalid
    default              | 05 03 01 04 01                    | yes
    all but MEMORY64     | 05 03 01 04 01                    | Invalid
    default              | 05 04 01 03 01 01                 | yes
    default              | 05 03 01 02 01                    | Invalid
    all but THREADS      | 05 04 01 03 01 01                 | Invalid
    default              | 05 04 01 08 01 00                 | Invalid
    all                  | 05 04 01 08 01 00                 | yes
    all                  | 05 04 01 08 01 01                 | Invalid
    default              | 05 03 01 10 01                    | Malformed
    // 100 memories, and one more.
    default              | 05 c9 01 64 0000*100              | yes
    default              | 05 cb 01 65 0000*101              | Limit(Memories)
    // Tags, a section of none, a tag of no type, an attribute that there isn't, and a tag whose type has results.
    default              | types 0d 03 01 00 00              | yes
    all but EXCEPTIONS   | types 0d 03 01 00 00              | Invalid
    all but EXCEPTIONS   | 0d 01 00                          | Invalid
    default              | 0d 03 01 00 00                    | Invalid
    default              | types 0d 03 01 01 00              | Malformed
    default              | 01 05 01 60 00 01 7f 0d 03 01 00 00 | Invalid
    all                  | 01 05 01 60 00 01 7f 0d 03 01 00 00 | yes
    // A body that copies a data segment into a memory, with a data count and without one.
    default              | types functions 05 03 01 00 01 0c 01 01 0a 0e 01 0c 00 41 00 41 00 41 00 fc 08 00 00 0b 0b 03 01 01 00 | yes
    default              | types functions 05 03 01 00 01 0a 0e 01 0c 00 41 00 41 00 41 00 fc 08 00 00 0b 0b 03 01 01 00 | Body
    // The start function: there is one, there is none of this index, it has a parameter, a result.
    default              | types functions 08 01 00 code     | yes
    default              | types functions 08 01 01 code     | Invalid
    default              | 01 05 01 60 01 7f 00 functions 08 01 00 code | Invalid
    default              | 01 05 01 60 00 01 7f functions 08 01 00 code | Invalid
    default              | types functions 08 02 00 00 code  | Malformed
    default              | types functions code 08 01 00     | Malformed
    // Tags stand before the start function, and after memories.
    default              | types functions 05 03 01 00 01 0d 03 01 00 00 08 01 00 code | yes
    default              | types 0d 03 01 00 00 05 03 01 00 01 | Malformed
    // A byte after no items.
    default              | 02 02 00 00                       | Malformed
    default              | 0b 02 00 00                       | Malformed
";
