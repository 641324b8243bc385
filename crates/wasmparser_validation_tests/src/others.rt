//! Operators after others: what they give, and where they are refused.

use crate::cases::{REFUSED, gives, has_outcome};
use crate::codes::feature_of;
use crate::letters::bytes_of_letters;
use crate::more_features::stays_accepted_with_more;
use std::alloc::Global;
use std::test::Fail;
use wasm_core_types::features::{Flags, WasmFeatures};
use wasm_test_rows::fields::four_fields;
use wasm_test_rows::rows::check_rows;
use wasm_test_rows::values::bytes_of;
use wasmparser_validation_rows::listed_resources::ListedResources;

// Operators that come first, and each of the others after them: the operands that it leaves, or that it's refused; without some features.
const OTHERS: &str = "
    // indexes past the ends
    ? | 2004 2104 2204 20ffffffff0f | refused |
    ? | 2304 2404 | refused |
    ? | 2504 2604 fc0f04 fc1004 fc1104 | refused |
    ? | 28420200 36420200 3f02 4002 fc080002 fc0a0200 fc0a0002 fc0b02 | refused |
    ? | fc080200 fc0902 | refused |
    ? | fc0c0200 fc0c0004 fc0d02 fc0e0400 fc0e0004 | refused |
    ? | 1005 1205 d205 | refused |
    ? | 110c00 110004 130c00 130004 140c 150c | refused |
    ? | 0c01 0d01 0e0001 0e010100 d501 d601 | refused |
    ? | d00c 1c01630c 02630c 020c 030c 040c | refused |
    ? | fb000c fb010c fb060c fb070c fb080c00 | refused |

    // types of other kinds
    ? | 110300 130400 1403 1504 0203 0304 0403 | refused |
    ? | fb0004 fb0000 fb0104 fb0603 fb0700 fb080300 | refused |
    ? | 110001 110002 130001 130002 | refused |
    ? | fc0c0100 fc0c0002 fc0c0003 fc0e0001 fc0e0100 fc0e0300 | refused |

    // what is constant, not declared, without a default or of other results
    ? | 2400 2403 | refused |
    ? | d201 d203 | refused |
    ? | fb0105 fb0706 | refused |
    ? | 1200 1202 1204 130000 130200 1500 1502 | refused |

    // alignments and offsets
    ? | 280300 290400 2a0300 2b0400 2c0100 2d0100 2e0200 2f0200 300100 310100 320200 330200 340300 350300 | refused |
    ? | 360300 370400 380300 390400 3a0100 3b0200 3c0100 3d0200 3e0300 | refused |
    ? | 28028080808010 36028080808010 2f018080808010 | refused |
    i | 2802ffffffff0f 280100 280000 | i |

    // choices
    iii | 1b | i |
    lli | 1b | l |
    ffi | 1b | f |
    ddi | 1b | d |
    vvi | 1b | v |
    ili | 1b | refused |
    FFi | 1b | refused |
    iil | 1b | refused |
    ii | 1b | refused |
    ? | 1b | ? |
    ?i | 1b | ? |
    ?li | 1b | l |
    ?Fi | 1b | refused |
    ?Ri | 1b | refused |
    ? | 1c00 1c027f7f | refused |
    iil | 1c017f | refused |
    iFi | 1c0170 | refused |
    iii | 1c017f | i |
    ?Ri | 1c0170 | F |
    ?Ri | 1c016f | E |
    ?Ri | 1c017f | refused |

    // what is dropped
    i | 1a | |
    F | 1a | |
    il | 1a | i |
    | 1a | refused |
    ? | 1a | |
    ?i | 1a | |
    [ | 1a | refused |
    i[ | 1a | refused |

    // references
    n | d4 | N |
    N | d4 | N |
    p | d4 | P |
    F | d4 | G |
    ? | d4 | ? |
    ?R | d4 | ? |
    i | d4 | refused |
    | d4 | refused |
    F | d4 | refused | function_references
    ?R | d1 | i |
    i | d1 | refused |
    E | fb1a | A |
    A | fb1b | E |
    K | fb1b | E |
    J | fb1b | * |
    ? | fb1a fb1b | * |
    ?R | fb1a fb1b | * |
    F | fb1a fb1b | refused |
    i | fb1a fb1b | refused |
    A | fb1a | refused |
    E | fb1b | refused |
    E | fb1a | refused | gc
    F | d3 | refused |
    QQ | d3 | i |

    // jumps where a reference is null, and where it isn't
    ip | d500 | iP |
    iP | d500 | iP |
    ? | d500 | i? |
    ?p | d500 | iP |
    ?Fp | d500 | refused |
    p | d500 | refused |
    ii | d500 | refused |
    lp | d500 | refused |
    (p | d600 | |
    (P | d600 | |
    (C | d600 | |
    (? | d600 | |
    ( | d600 | refused |
    (i | d600 | refused |
    (n | d600 | refused |
    ? | d500 d600 | refused | function_references
    ? | d600 | refused |
    i | d600 | refused |
    [ | d600 | refused |

    // ends of bodies and blocks
    i | 0b | i |
    | 0b | refused |
    l | 0b | refused |
    ii | 0b | refused |
    ? | 0b | i |
    ?i | 0b | i |
    ?ii | 0b | refused |
    ?l | 0b | refused |
    i] | 01 0b 00 0f | refused |
    [i | 0b | refused |
    [ | 0b | |
    i[ | 0b | i |
    { | 0b | |
    [? | 0b | |
    [?i | 0b | refused |
    [?] | 1a | refused |
    Bi | 0b | i |
    B | 0b | refused |
    Bl | 0b | refused |
    (P | 0b | p |
    (C | 0b | p |
    (n | 0b | refused |
    il@ | 0b | refused |
    il@? | 0b | i |
    il%li | 0b | refused |

    // second lists
    i< | 0b | |
    i< | 05 | |
    i</ | 0b | |
    i</ | 05 | refused |
    i>i | 0b | refused |
    i>i | 05 | |
    i>i/i | 0b | i |
    i>i/l | 0b | refused |
    i>l | 05 | refused |
    i> | 05 | refused |
    i>ii | 05 | refused |
    i>? | 05 | |
    ii^ | 0b | i |
    ii^ | 05 | i |
    ii^/ | 0b | i |
    [ | 05 | refused |
    { | 05 | refused |
    | 05 | refused |
    ? | 05 | refused |

    // labels
    i | 0c00 | |
    l | 0c00 | refused |
    | 0c00 | refused |
    [ | 0c00 | |
    [ | 0c01 | refused |
    [i | 0c00 0c01 | |
    { | 0c00 | |
    il@ | 0c00 | refused |
    il@i | 0c00 | |
    il% | 0c00 | |
    il%i | 0c00 | refused |
    i~ | 0c00 | |
    [i | 0d00 | |
    ii | 0d00 | i |
    [i | 0f | |
    [l | 0f | refused |
    [[i | 0e02000100 0e0001 | |
    [[i | 0e0002 | refused |
    [ii | 0e010001 0e010100 | refused |
    [? | 0e010001 0e010100 | refused |
    BDii | 0e010001 0e010100 | refused |
    BD? | 0e010001 0e010100 | |
    BBii | 0e02000102 | |
    l | 0e0000 | refused |

    // locals without a value
    | 2003 | refused |
    ? | 2003 | refused |
    Nx | 2003 | G |
    NX | 2003 | GG |
    [Nx | 2003 | G |
    Nx[ | 2003 | G |
    [Nx] | 2003 | refused |
    [NXz] | 2003 | refused |
    {Nx] | 2003 | refused |
    i<Nx/ | 2003 | refused |
    i<Nx | 2003 | G |
    i<Nx/Nx] | 2003 | refused |
    Nxi</ | 2003 | G |
    ?x | 2003 | G |
    F | 2103 2203 | refused |
    l | 2100 2200 | refused |

    // unknown and known operands
    ?v | 45 | refused |
    ?iv | 6a | refused |
    ?vi | 6a | refused |
    ?i | 6a | i |
    ?? | 6a | i |
    ?[ | 45 | refused |
    ?[] | 45 | i |
    B?] | 45 | i |
    ?l | 1001 | i |
    ?R | 2600 2601 | |
    ?R | 2401 | refused |
    ?R | 1004 | P |

    // types below others
    n | 1004 | refused |
    S | 1004 | refused |
    E | 2402 | refused |
    iE | 2600 | refused |
    iF | 2601 2603 | refused |
    in | 2603 | |
    i | 28420100 | refused |
    l | 280200 | refused |
    ill | fc0a0001 | refused |
    lii | fc0b01 | refused |
";

fn features_without(words: &str) -> Option<WasmFeatures> {
    let mut features = WasmFeatures::default();
    for word in words.split_whitespace() {
        features = features.difference(feature_of(word)?);
    }
    Some(features)
}

// Checks that an operator that is accepted if it's tried is accepted so too, and stays so under more features.
fn is_answered(
    alloc: Global,
    resources: &ListedResources,
    features: WasmFeatures,
    before: &[u8],
    operator: &[u8],
    expected: &str,
) -> Option<bool> {
    Some(
        has_outcome(alloc, resources, features, before, operator, expected)?
            && (expected == REFUSED
                || gives(alloc, resources, features, before, operator, expected)?)
            && stays_accepted_with_more(alloc, resources, before, operator)?,
    )
}

// Checks that a row holds of one of its operators.
fn other_holds(alloc: Global, resources: &ListedResources, row: &str, word: &str) -> Option<bool> {
    let (letters, _, expected, features) = four_fields(row)?;
    let features = features_without(features)?;
    let operator = bytes_of(alloc, word)?;
    let before = bytes_of_letters(alloc, letters)?;
    is_answered(alloc, resources, features, &before, &operator, expected)
}

fn others_hold(alloc: Global, resources: &ListedResources, row: &str) -> Option<bool> {
    let (_, operators, _, _) = four_fields(row)?;
    for word in operators.split_whitespace() {
        if !other_holds(alloc, resources, row, word)? {
            return Some(false);
        }
    }
    Some(true)
}

fn rows_hold(alloc: Global, resources: &ListedResources) -> Result<(), &'static str> {
    check_rows(
        alloc,
        OTHERS,
        201,
        |alloc, row| others_hold(alloc, resources, row),
    )
}

#[test]
fn operators_stand_where_they_may(rt: HostRuntime) -> Result<(), Fail> {
    let alloc = rt.alloc();
    let Some(resources) = ListedResources::example(alloc) else {
        assert!(rt; false);
        return Ok(());
    };
    let result = rows_hold(alloc, &resources);
    drop(resources);
    Ok(result?)
}
