//! Modules that are cut.

/// How many rows there are.
pub const COUNT: usize = 51;

/// Features, sections, and where a cut leaves a module.
pub const ROWS: &str = "
    cuts |                             | 8
    cuts | custom 00 84 00 02 c3 a9 00 | 8 13 20
    cuts | types functions code        | 8 14 25
    // Types, imports and bodies.
    cuts | 01 06 01 60 01 7f 01 7c | 8 16
    cuts | 01 09 02 60 00 00 60 01 7f 01 7c | 8 19
    cuts | 01 84 80 80 80 00 01 60 00 00 | 8 18
    cuts | types 02 05 01 00 00 00 00 | 8 14 21
    cuts all | types 02 05 01 00 00 00 00 | 8 14 21
    cuts | types functions 0a 04 01 02 00 0b | 8 14 24
    cuts | types functions 0a 07 01 05 01 01 7b 00 0b | 8 14 27
    cuts | types functions 0a 0b 01 09 00 41 ff ff ff ff 7f 1a 0b | 8 14 31
    cuts | types functions 07 05 01 01 66 00 00 0a 07 01 05 00 d2 00 1a 0b | 8 14 34
    cuts | 01 09 02 5e 7f 00 60 00 01 64 00 03 02 01 01 0a 16 01 14 00 00 fb 08 00 ff ff ff ff 0f 00 fb 08 00 ff ff ff ff 0f 0b | 8 19 47
    cuts all | 02 0b 01 01 6d 00 7f 01 01 61 02 00 01 | 8 21
    cuts all | 02 0d 01 01 6d 00 7e 02 00 01 02 01 61 01 62 | 8 23
    // Groups and supertypes.
    cuts | 01 19 02 4e 02 5f 01 63 01 00 5f 01 63 00 00 4e 02 5f 01 63 03 00 5f 01 63 02 00 | 8 35
    cuts | 01 0c 02 50 00 5f 00 50 01 00 5f 01 7f 00 | 8 22
    cuts | 01 0a 02 5f 00 4e 02 5f 00 5e 7f 00 | 8 20
    cuts | 01 07 02 5f 00 4e 01 5f 00 | 8 17
    cuts | 01 06 01 50 00 60 00 00 | 8 16
    cuts | 01 09 02 60 00 00 5f 01 63 00 00 functions code | 8 19 30
    // Memories, globals, exports and data.
    cuts | 05 08 01 00 81 80 80 80 80 00 | 8 18
    cuts | 05 03 01 00 01 07 05 01 01 61 02 00 | 8 13 20
    cuts | 06 0b 02 7f 00 41 00 0b 7f 00 23 00 0b | 8 21
    cuts | 05 03 01 00 01 0c 01 01 0b 03 01 01 00 | 8 13 21
    cuts | types functions 05 03 01 00 01 0c 01 01 0a 0e 01 0c 00 41 00 41 00 41 00 fc 08 00 00 0b 0b 03 01 01 00 | 8 14 47
    cuts | 05 03 01 00 00 0c 01 01 0b 06 01 00 41 00 0b 00 | 8 13 24
    // A section of most kinds, an item of each space, a table with an initialiser.
    cuts | types 02 07 01 01 6d 01 66 00 00 05 03 01 00 01 07 05 01 01 66 00 00 08 01 00 0c 01 01 0b 08 01 00 41 00 0b 02 68 69 00 03 01 63 07 | 8 14 23 28 35 38 51 56
    cuts | 01 0c 02 60 02 7f 7e 01 7f 60 02 7e 7f 00 functions 04 04 01 70 00 0a 05 04 01 01 01 05 0d 03 01 00 01 06 06 01 7f 01 41 00 0b 09 07 01 05 70 01 d2 00 0b 0a 06 01 04 00 41 00 0b | 8 22 68
    cuts | 01 0c 02 60 02 7f 7e 01 7f 60 02 7e 7f 00 functions 04 04 01 70 00 0a 05 04 01 01 01 05 0d 03 01 00 01 06 06 01 7f 01 41 00 0b 09 07 01 05 70 01 d2 00 0b code | 8 22 67
    cuts | types functions 04 04 01 70 00 01 0d 03 01 00 00 06 06 01 7f 01 41 07 0b 08 01 00 09 07 01 00 41 00 0b 01 00 code | 8 14 56
    cuts | types functions 04 0a 01 40 00 64 70 00 00 d2 00 0b 07 09 02 01 66 00 00 01 74 01 00 code | 8 14 48
    // Continuations.
    cuts all | 01 06 02 60 00 00 5d 00 | 8 16
    cuts all | 01 05 01 60 00 01 7f 0d 03 01 00 00 | 8 15 20
    cuts all | 06 06 01 68 00 d0 75 0b | 8 16
    cuts all | 01 06 02 60 00 00 5d 00 06 06 01 68 00 d0 01 0b | 8 16 24
    // Modules that the generator makes.
    cuts | 01 05 01 60 01 7f 00 functions code | 8 15 26
    cuts | 01 07 02 60 00 00 60 00 00 | 8 17
    cuts | 01 0d 02 50 00 5f 01 78 01 50 00 5f 01 78 01 | 8 23
    cuts | 01 0d 01 4e 02 5f 01 63 01 00 5f 01 63 00 00 | 8 23
    cuts | 01 05 01 5e 63 00 00 | 8 15
    cuts all | 01 05 01 60 01 68 00 functions code | 8 15 26
    cuts | types 03 03 02 00 00 07 08 02 00 00 00 01 31 00 01 0a 09 02 03 00 00 0b 03 00 00 0b | 8 14 40
    cuts | 00 01 00 | 8 11
    // As many locals, parameters, results, types above one, tables, memories and imports as there may be.
    cuts | types functions 0a 09 01 07 01 d0 86 03 7f 00 0b | 8 14 29
    cuts | 01 ed 07 01 60 e8 07 7f*1000 00 | 8 1016
    cuts | 01 ed 07 01 60 00 e8 07 7f*1000 | 8 1016
    cuts | 01 c002 40 50005f00 5001#5f00*63 | 8 331
    cuts | 04 ad 02 64 700000*100 | 8 312
    cuts | 05 c9 01 64 0000*100 | 8 212
    cuts | 01 ed07 01 60 e807 7f*1000 00 02 a41f e807 00000000*998 0000037f00*2 | 8 1016 5023
";
