//! The lines that are written of modules, their explanations, and what modules export.

/// How many rows there are.
pub const COUNT: usize = 25;

/// Features, sections, and the line on their module, with its explanation, if it is asked for, or what it exports.
pub const ROWS: &str = "
    line |                                | yes types=0 functions=0 tables=0 memories=0 globals=0 tags=0 elements=0 exports=0
    line | types functions code           | yes types=1 functions=1 tables=0 memories=0 globals=0 tags=0 elements=0 exports=0
    line | 01 0a 03 600000*3 03 06 05 00 01 02 01 00 0a 10 05 02000b*5 | yes types=3 functions=5 tables=0 memories=0 globals=0 tags=0 elements=0 exports=0
    line | types 05 05 02 00 01 00 01 0d 07 03 00 00 00 00 00 00 | yes types=1 functions=0 tables=0 memories=2 globals=0 tags=3 elements=0 exports=0
    line | types 02 05 01 00 00 00 00 functions code | yes types=1 functions=2 tables=0 memories=0 globals=0 tags=0 elements=0 exports=0
    line | types 02 1b 05 00 00 01 70 00 00 00 00 02 00 00 00 00 03 7f 00 00 00 03 7f 00 00 00 04 00 00 | yes types=1 functions=0 tables=1 memories=1 globals=2 tags=1 elements=0 exports=0
    line | types functions 04 07 02 70 00 00 70 00 00 06 06 01 7f 00 41 00 0b 09 0b 03 01 00 00 03 00 01 00 01 00 00 code | yes types=1 functions=1 tables=2 memories=0 globals=1 tags=0 elements=3 exports=0
    line | 05 03 01 00 01 07 0a 02 01 61 02 00 02 62 63 02 00 | yes types=0 functions=0 tables=0 memories=1 globals=0 tags=0 elements=0 exports=2
    exports | 05 03 01 00 01 07 0a 02 01 61 02 00 02 62 63 02 00 | a Memory 0, bc Memory 0
    exports | 04 04 01 70 00 00 05 03 01 00 01 06 0b 02 7f 00 41 00 0b 7f 00 41 00 0b 07 0d 03 01 63 02 00 01 62 01 00 01 61 03 01 | c Memory 0, b Table 0, a Global 1
    line | types 02 07 01 01 6d 01 66 00 00 05 03 01 00 01 07 05 01 01 66 00 00 08 01 00 0c 01 01 0b 08 01 00 41 00 0b 02 68 69 00 03 01 63 07 | yes types=1 functions=1 tables=0 memories=1 globals=0 tags=0 elements=0 exports=1
    line | 01 0c 02 60 02 7f 7e 01 7f 60 02 7e 7f 00 functions 04 04 01 70 00 0a 05 04 01 01 01 05 0d 03 01 00 01 06 06 01 7f 01 41 00 0b 09 07 01 05 70 01 d2 00 0b 0a 06 01 04 00 41 00 0b | yes types=2 functions=1 tables=1 memories=1 globals=1 tags=1 elements=1 exports=0
    line | 01 0c 02 60 02 7f 7e 01 7f 60 02 7e 7f 00 functions 04 04 01 70 00 0a 05 04 01 01 01 05 0d 03 01 00 01 06 06 01 7f 01 41 00 0b 09 07 01 05 70 01 d2 00 0b code | yes types=2 functions=1 tables=1 memories=1 globals=1 tags=1 elements=1 exports=0
    line | types 02 05 01 00 00 00 00 | yes types=1 functions=1 tables=0 memories=0 globals=0 tags=0 elements=0 exports=0
    line all | types 02 05 01 00 00 00 00 | yes types=1 functions=1 tables=0 memories=0 globals=0 tags=0 elements=0 exports=0
    line all | 01 06 02 60 00 00 5d 00 | yes types=2 functions=0 tables=0 memories=0 globals=0 tags=0 elements=0 exports=0
    line all | 01 05 01 60 00 01 7f 0d 03 01 00 00 | yes types=1 functions=0 tables=0 memories=0 globals=0 tags=1 elements=0 exports=0
    line | types functions 0a 03 01 01 00 | no body
    line | types 03 02 01 01 code         | no invalid
    explained | types functions code               | yes types=1 functions=1 tables=0 memories=0 globals=0 tags=0 elements=0 exports=0 |
    explained | 01 ff                              | no malformed | at offset 9: section type
    explained | types 03 02 01 01 code             | no invalid | at offset 17: section function, entry 0
    explained all | 05 cb 01 65 0001*101           | no limit | at offset 212: section memory, entry 100; the limit Memories is 100
    explained | types functions 0a 05 01 03 00 6a 0b          | no body | at offset 23: function 0, operator 0 (i32.add)
    explained | types functions 0a 09 01 07 00 41 00 fd 0f 1a 0b | no operator | at offset 27: function 0, operator 1
";
