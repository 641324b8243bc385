//! The limits on fields, depths, groups, imports, globals, tags, items of segments and exports.

/// How many rows there are.
pub const COUNT: usize = 26;

/// Features, sections, and the answer.
pub const ROWS: &str = "
    // 10,000 fields, and one more.
    default | 01 a49c01 01 5f 904e 7f00*10000 | yes
    default | 01 a69c01 01 5f 914e 7f00*10001 | Limit(Fields)
    // A chain of types, of which the last has 63 above it, and one more.
    default | 01 c002 40 50005f00 5001#5f00*63 | yes
    default | 01 c502 41 50005f00 5001#5f00*64 | Limit(Depth)
    // One group of 1,000,000 types, as many groups of none, and one more of each.
    default | 01 85897a 01 4e c0843d 5f00*1000000 | yes
    default | 01 87897a 01 4e c1843d 5f00*1000001 | Limit(Types)
    default | 01 83897a c0843d 4e00*1000000 | yes
    default | 01 85897a c1843d 4e00*1000001 | Limit(Groups)
    // 1,000,000 entries of imports, each of which is a group of none, and one more.
    all | 02 8392f401 c0843d 00007f00*1000000 | yes
    all | 02 8792f401 c1843d 00007f00*1000001 | Limit(Imports)
    // The size of all imports as a type: 998 functions of 1,000 parameters with two globals, and with a third one.
    default | 01 ed07 01 60 e807 7f*1000 00 02 a41f e807 00000000*998 0000037f00*2 | yes
    default | 01 ed07 01 60 e807 7f*1000 00 02 a91f e907 00000000*998 0000037f00*3 | Limit(TypeSize)
    // 1,000,000 globals and tags, and one more.
    default | 06 c396b102 c0843d 7f0041000b*1000000 | yes
    default | 06 c896b102 c1843d 7f0041000b*1000001 | Limit(Globals)
    default | types 0d 83897a c0843d 0000*1000000 | yes
    default | types 0d 85897a c1843d 0000*1000001 | Limit(Tags)
    // 10,000,000 items of a segment, and one more.
    default | types functions 09 87ade204 01 01 00 80ade204 00*10000000 code | yes
    default | types functions 09 88ade204 01 01 00 81ade204 00*10000001 code | Limit(SegmentEntries)
    // As many exports as their size as a type allows, one more, more than 1,000,000, and so many that aren't there.
    default | 05 03 01 00 01 07 b1a8a504 be843d 06@0200*999998 | yes
    default | 05 03 01 00 01 07 baa8a504 bf843d 06@0200*999999 | Limit(TypeSize)
    default | 05 03 01 00 01 07 cca8a504 c1843d 06@0200*1000001 | Limit(TypeSize) or Limit(Exports)
    default | 05 03 01 00 01 07 03 c1843d | Malformed or Limit(Exports)
    // Names of 1,000,000 bytes together, in order, out of order, and one of them twice; and ten of 100,000 bytes that differ in the last one.
    default | 05 03 01 00 01 07 a3ac4f a08d06 0a61616161@0200*100000 | yes
    default | 05 03 01 00 01 07 a3ac4f a08d06 0a61616161@0200*50000..100000 0a61616161@0200*50000 | yes
    default | 05 03 01 00 01 07 b0ac4f a18d06 0a61616161@0200*50000..100000 0a61616161@0200*50001 | Invalid
    default | 05 03 01 00 01 07 f3843d 0a a08d06 61*99999 620200 a08d06 61*99999 610200 a08d06 61*99999 630200 a08d06 61*99999 690200 a08d06 61*99999 680200 a08d06 61*99999 670200 a08d06 61*99999 660200 a08d06 61*99999 650200 a08d06 61*99999 640200 a08d06 61*99999 6a0200 | yes
";
