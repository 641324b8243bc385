//! Custom sections, and the ids of sections.

/// How many rows there are.
pub const COUNT: usize = 45;

/// Features, sections, and the answer.
pub const ROWS: &str = "
    // Empty names.
    default | 00 01 00       | yes
    default | 00 03 00 ff 80 | yes
    // Many sections.
    default | 00 03 01 61 07 00 04 02 c3 a9 00 00 03 01 61 07 00 04 02 c3 a9 00 | yes
    // Sizes, padded up to five bytes.
    default | 00 02             01 61 | yes
    default | 00 82 00          01 61 | yes
    default | 00 82 80 00       01 61 | yes
    default | 00 82 80 80 00    01 61 | yes
    default | 00 82 80 80 80 00 01 61 | yes
    // Lengths of names, padded up to five bytes.
    default | 00 02 01             61 | yes
    default | 00 03 81 00          61 | yes
    default | 00 04 81 80 00       61 | yes
    default | 00 05 81 80 80 00    61 | yes
    default | 00 06 81 80 80 80 00 61 | yes
    // Padding past five bytes.
    default | 00 82 80 80 80 80 00    01 61 | Malformed
    default | 00 07 81 80 80 80 80 00    61 | Malformed
    // Unused bits that are not zero, of a size and of a length.
    default | 00 82 80 80 80 10    01 61 | Malformed
    default | 00 06 81 80 80 80 10    61 | Malformed
    default | 00 82 80 80 80 20    01 61 | Malformed
    default | 00 06 81 80 80 80 20    61 | Malformed
    default | 00 82 80 80 80 40    01 61 | Malformed
    default | 00 06 81 80 80 80 40    61 | Malformed
    default | 00 82 80 80 80 7f    01 61 | Malformed
    default | 00 06 81 80 80 80 7f    61 | Malformed
    // A frame that passes the end, a name that passes its frame, a frame without a name, a section without a frame.
    default | 00 03 01 61    | Malformed
    default | 00 02 02 61 62 | Malformed
    default | 00 00          | Malformed
    default | 00             | Malformed
    default | 00 01 00 00    | Malformed
    // Names that are UTF-8.
    default | 00 02 01 7f          | yes
    default | 00 03 02 c3 a9       | yes
    default | 00 04 03 e2 82 ac    | yes
    default | 00 05 04 f4 8f bf bf | yes
    // Overlong forms, surrogates, what is past the last character, cut sequences, bytes that begin nothing.
    default | 00 03 02 c0 80       | Malformed
    default | 00 03 02 c1 bf       | Malformed
    default | 00 04 03 e0 9f bf    | Malformed
    default | 00 05 04 f0 8f bf bf | Malformed
    default | 00 04 03 ed a0 80    | Malformed
    default | 00 04 03 ed bf bf    | Malformed
    default | 00 05 04 f4 90 80 80 | Malformed
    default | 00 05 04 f5 80 80 80 | Malformed
    default | 00 02 01 c3          | Malformed
    default | 00 03 02 e2 82       | Malformed
    default | 00 04 03 f0 9f 98    | Malformed
    default | 00 02 01 80          | Malformed
    // With no entries, sections of these ids are a module. What a start section says then is a function, and a data count none. The id in the row is one of many.
    ids     | 01 01 00             | 1 2 3 4 5 6 7 9 10 11 12 13, but Invalid 8
";
